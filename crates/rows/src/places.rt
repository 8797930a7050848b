//! Where the base of some rows stands.
ghost use Rattle.std.specs.Prelude.{◌≤◌, length};
ghost use Rattle.rows.specs.Places.{Based};

use crate::row::{Row, RowKind};

/// The place of the last row still open among the first `end`.
pub fn last_open(rows: &[Row], end: usize) -> Option<usize>
    requires { end ≤ length rows.now }
    ensures { Based rows.now end result }
{
    rows[..end]
        .iter()
        .rposition(|row| row.kind == RowKind::Open)
}
