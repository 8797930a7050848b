//! One row put after others.
ghost use Rattle.std.specs.Prelude.{◌≡◌, ℕ, ◌<◌, ◌≤◌, length, drop, None, if◌then◌else◌, slice_set, IfSome};
ghost use Rattle.std.specs.Str.{bytes_eq};
ghost use Rattle.rows.specs.Pieces.{Inside, name, done, take_row};
ghost use Rattle.rows.specs.Places.{stored, paired, Based, at, entry, state, grown, stopped, wrote, under_at};
ghost use Rattle.rows.specs.Same.{SameLists};

use crate::lists::Lists;
use crate::names::same_name;
use crate::row::{Row, RowKind};
use machine::Machine;

/// What came of a row that was put after others.
#[derive(Clone, Copy, Debug, PartialEq, Eq)]
pub enum Step {
    Added,
    /// It closed the base.
    Closed,
    Mismatch,
}

/// Closes the base at `i` by the end tag `row` if it has the same name, and says whether it has.
pub fn close_base(file: &[u8], rows: &mut [Row], i: usize, row: Row) -> bool
    requires here { i < length rows.old }
    requires open { Inside file.now (at rows.old i) }
    requires own { Inside file.now row }
    ensures same { result ≡ bytes_eq (name file.now (at rows.old i)) (name file.now row) }
    ensures rows { rows.new ≡ (if result then slice_set rows.old i (done (at rows.old i)) else rows.old) }
{
    let open = rows[i];
    if !same_name(file, open, row) {
        return false;
    }
    rows[i] = Row {
        kind: RowKind::Done,
        ..open
    };
    true
}

/// The plain form of one action and then another.
#[tactic(auto, unfolding(crate::specs::Places::stored))]
fn both<M: Machine>(m: &M, first: &M::Plain, second: &M::Plain) -> M::Plain
    ensures { result ≡ (stored (M.model m.now)).then first.now second.now }
{
    m.plain(&m.then(&m.back(first), &m.back(second)))
}

/// Adds one row after the first `n`: its action comes after that of its base, if it has one.
pub fn add_entry<M: Machine>(
    m: &M,
    lists: &mut Lists<'_, M::Plain>,
    n: usize,
    base: Option<usize>,
    row: Row,
    plain: &M::Plain,
)
    requires room { n < length lists.old.rows.now }
    requires based { IfSome base (λ i. i < n) }
    ensures rows { lists.new.rows.now ≡ slice_set lists.old.rows.now n row }
    ensures actions { lists.new.actions.now ≡ slice_set lists.old.actions.now n (under_at (stored (M.model m.now)) lists.old.actions.now base plain.now) }
    ensures same { SameLists lists.old lists.new }
{
    let action = match base {
        None => *plain,
        Some(i) => {
            let above = lists.actions[i];
            both(m, &above, plain)
        }
    };
    lists.write(n, row, action);
}

/// Puts one row after the first `n`. Its base is at `base`, the last row still open among the first `left`.
pub fn put_entry<M: Machine>(
    m: &M,
    file: &[u8],
    lists: &mut Lists<'_, M::Plain>,
    left: usize,
    n: usize,
    base: Option<usize>,
    row: Row,
    plain: &M::Plain,
) -> Step
    requires room { n < length lists.old.rows.now }
    requires within { left ≤ n }
    requires based { Based lists.old.rows.now left base }
    requires names { (k : ℕ) → k < left → Inside file.now (at lists.old.rows.now k) }
    requires own { Inside file.now row }
    ensures taken { state (paired lists.new.rows.now lists.new.actions.now) left (grown result n) (stopped result row) ≡ take_row file.now (stored (M.model m.now)) (state (paired lists.old.rows.now lists.old.actions.now) left n None) (entry row plain.now) }
    ensures rows { lists.new.rows.now ≡ wrote result base n row lists.old.rows.now }
    ensures rest { drop (grown result n) lists.new.actions.now ≡ drop (grown result n) lists.old.actions.now }
    ensures same { SameLists lists.old lists.new }
{
    match (row.kind, base) {
        (RowKind::Close, Some(i)) => match lists.close_base(file, i, row) {
            Ok(()) => Step::Closed,
            Err(_) => Step::Mismatch,
        },
        _ => {
            add_entry(m, lists, n, base, row, plain);
            Step::Added
        }
    }
}
