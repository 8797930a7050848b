ghost use Rattle.std.specs.Prelude.{◌≡◌, ℕ, ◌<◌, length, slice_index};

/// Leads each of 32 states to one.
#[derive(Clone, Copy)]
pub struct TableAction {
    pub to: [u8; 32],
    ghost size: { length to ≡ 32 },
    ghost ok: { (k : ℕ) → k < 32 → slice_index to k < 32 },
}
