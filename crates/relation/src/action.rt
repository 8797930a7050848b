ghost use Rattle.std.specs.Prelude.{◌≡◌, ℕ, ◌^◌, ◌<◌, length, slice_index};

/// A relation on 32 positions: bit j of row i is set where i leads to j.
#[derive(Clone, Copy)]
pub struct RelationAction {
    pub rows: [u32; 32],
    ghost size: { length rows ≡ 32 },
    ghost low: { (k : ℕ) → k < 32 → slice_index rows k < 2 ^ 32 },
}
