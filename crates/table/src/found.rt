ghost use Rattle.std.specs.Prelude.{◌≡◌, ◌≤◌, length};

/// The sets found so far, in order: the states.
#[derive(Clone, Copy)]
pub struct Found {
    pub sets: [u32; 32],
    pub count: usize,
    ghost size: { length sets ≡ 32 },
    ghost within: { count ≤ 32 },
}
