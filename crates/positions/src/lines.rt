ghost use Rattle.std.specs.Prelude.{◌≡◌, ℕ, ◌<◌, ◌≤◌, length, slice_index};

/// The first and the last position of each query; there are `count` queries.
#[derive(Clone, Copy)]
pub struct Lines {
    pub first: [u8; 8],
    pub last: [u8; 8],
    pub count: usize,
    ghost firsts: { length first ≡ 8 },
    ghost lasts: { length last ≡ 8 },
    ghost begin: { (q : ℕ) → q < 8 → slice_index first q < 32 },
    ghost end: { (q : ℕ) → q < 8 → slice_index last q < 32 },
    ghost within: { count ≤ 8 },
}
