ghost use Rattle.std.specs.Prelude.{◌≤◌};

use crate::found::Found;
use positions::Moves;

/// The states found so far, with where the columns tried lead from each, and how positions move on a column.
#[derive(Clone, Copy)]
pub struct Filling {
    pub moves: Moves,
    pub columns: usize,
    pub found: Found,
    pub next: [u8; 512],
    ghost few: { columns ≤ 16 },
}
