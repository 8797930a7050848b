ghost use Rattle.std.specs.Prelude.{◌≡◌, ℕ, ◌+◌, ◌*◌, ◌/◌, ◌%◌, ◌<◌, length, slice_index};

use crate::found::Found;

/// The states, and where each column leads from each: 16 entries for each of 32 states. The same table is kept column by column,
/// 32 entries for each, so that a column's action stands in one place.
#[derive(Clone, Copy)]
pub struct States {
    pub found: Found,
    pub next: [u8; 512],
    pub columns: [u8; 512],
    ghost size: { length next ≡ 512 },
    ghost ok: { (k : ℕ) → k < 512 → slice_index next k < 32 },
    ghost whole: { length columns ≡ 512 },
    ghost turned: { (k : ℕ) → k < 512 → slice_index columns k ≡ slice_index next (k % 32 * 16 + k / 32) },
}
