ghost use Rattle.std.specs.Prelude.{◌≡◌, ℕ, ◌^◌, ◌<◌, length, slice_index};

/// Which positions lead to the next one on a name of each column, and which lead to themselves.
#[derive(Clone, Copy)]
pub struct Moves {
    pub fits: [u32; 16],
    pub stays: u32,
    ghost size: { length fits ≡ 16 },
    ghost low: { (c : ℕ) → c < 16 → slice_index fits c < 2 ^ 31 },
    ghost within: { stays < 2 ^ 32 },
}
