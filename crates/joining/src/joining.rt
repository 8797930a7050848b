//! The rows of two pieces joined: the new piece's rows are written past those of the others.
ghost use Rattle.std.specs.Prelude.{◌≡◌, ℕ, ◌+◌, ◌-◌, ◌<◌, ◌≤◌, length, take, drop};
ghost use Rattle.rows.specs.Pieces.{seal, put};
ghost use Rattle.rows.specs.Stretches.{one, joined_at};
ghost use Rattle.rows.specs.Lists.{kept_at, held, ends_of, RowRule, Leaves};
ghost use Rattle.rows.specs.Places.{stored, paired, Based};
ghost use Rattle.rows.specs.Same.{SameLists};
ghost use Rattle.joining.specs.Taking.{FirstInside, Takes};

use machine::Machine;
use rows::part::{Kept, Part};
use rows::places::last_open;
use rows::putting::{Step, put_entry};
use rows::{Entries, Lists, PieceFault, Row, Source};

/// What the first `n` rows come to with a fault, or without one.
fn seal<P: Copy>(lists: &mut Lists<'_, P>, n: usize, fault: Option<PieceFault>) -> Kept
    requires { n ≤ length lists.old.rows.now }
    ensures sealed { kept_at lists.new.rows.now lists.new.actions.now 0 result ≡ seal (take n (paired lists.old.rows.now lists.old.actions.now)) fault }
    ensures within { result.rows ≤ n }
    ensures same { SameLists lists.old lists.new }
{
    let rows = match fault {
        None => n,
        Some(_) => lists.keep_closes(n),
    };
    Kept { rows, fault }
}

/// The place of the last row still open among the first `end`.
fn base_of<P: Copy>(lists: &Lists<'_, P>, end: usize) -> Option<usize>
    requires { end ≤ length lists.now.rows.now }
    ensures { Based lists.now.rows.now end result }
{
    last_open(lists.rows, end)
}

/// Puts rows, in order, after the first `left`. The fault that is kept is a mismatch, at which it stops.
fn take_rows<M: Machine>(
    source: &Source<'_, M>,
    lists: &mut Lists<'_, M::Plain>,
    left: usize,
    more: &Entries<'_, M::Plain>,
) -> Kept
    requires room { left + length more.now.rows.now ≤ length lists.old.rows.now }
    requires names { FirstInside source.now.file.now lists.old.rows.now left }
    requires own { FirstInside source.now.file.now more.now.rows.now (length more.now.rows.now) }
    ensures taken { Takes source.now.file.now (stored (M.model source.now.machine.now)) left (paired more.now.rows.now more.now.actions.now) (paired lists.old.rows.now lists.old.actions.now) (paired lists.new.rows.now lists.new.actions.now) result }
    ensures within { (left ≤ result.rows) × (result.rows ≤ left + length more.now.rows.now) }
    ensures same { SameLists lists.old lists.new }
{
    let mut n = left;
    let mut base = base_of(lists, left);
    for (row, plain) in more.rows.iter().zip(more.actions) {
        match put_entry(
            source.machine,
            source.file,
            lists,
            left,
            n,
            base,
            *row,
            plain,
        ) {
            Step::Added => n += 1,
            Step::Closed => {
                if let Some(i) = base {
                    base = base_of(lists, i);
                }
            }
            Step::Mismatch => return Kept {
                rows: n,
                fault: Some(row.mismatch()),
            },
        }
    }
    Kept {
        rows: n,
        fault: None,
    }
}

/// Puts rows and the fault after them, if any, after what is kept.
fn put<M: Machine>(
    source: &Source<'_, M>,
    lists: &mut Lists<'_, M::Plain>,
    x: Kept,
    more: &Entries<'_, M::Plain>,
    fault: Option<PieceFault>,
) -> Kept
    requires room { x.rows + length more.now.rows.now ≤ length lists.old.rows.now }
    requires names { FirstInside source.now.file.now lists.old.rows.now x.rows }
    requires own { FirstInside source.now.file.now more.now.rows.now (length more.now.rows.now) }
    ensures put { kept_at lists.new.rows.now lists.new.actions.now 0 result ≡ put source.now.file.now (stored (M.model source.now.machine.now)) (kept_at lists.old.rows.now lists.old.actions.now 0 x) (record { rows = paired more.now.rows.now more.now.actions.now; fault = fault }) }
    ensures within { result.rows ≤ x.rows + length more.now.rows.now }
    ensures same { SameLists lists.old lists.new }
{
    if x.fault.is_some() {
        return x;
    }
    let taken = take_rows(source, lists, x.rows, more);
    seal(lists, taken.rows, taken.fault.or(fault))
}

/// Puts the stretch from `mark` up to the next mark at `to` after what is kept.
fn put_stretch<M: Machine>(
    source: &Source<'_, M>,
    lists: &mut Lists<'_, M::Plain>,
    x: Kept,
    mark: usize,
    to: usize,
) -> Kept
    requires room { x.rows < length lists.old.rows.now }
    requires names { FirstInside source.now.file.now lists.old.rows.now x.rows }
    ensures put { kept_at lists.new.rows.now lists.new.actions.now 0 result ≡ put source.now.file.now (stored (M.model source.now.machine.now)) (kept_at lists.old.rows.now lists.old.actions.now 0 x) (one source.now.file.now (stored (M.model source.now.machine.now)) (mark, to)) }
    ensures within { result.rows ≤ x.rows + 1 }
    ensures same { SameLists lists.old lists.new }
{
    if x.fault.is_some() {
        return x;
    }
    let (row, plain) = match source.tag_row(mark, to) {
        Ok(made) => made,
        Err(fault) => return seal(lists, x.rows, Some(fault)),
    };
    let base = base_of(lists, x.rows);
    match put_entry(
        source.machine,
        source.file,
        lists,
        x.rows,
        x.rows,
        base,
        row,
        &plain,
    ) {
        Step::Added => Kept {
            rows: x.rows + 1,
            fault: None,
        },
        Step::Closed => x,
        Step::Mismatch => seal(lists, x.rows, Some(row.mismatch())),
    }
}

/// The rows of a part.
fn rows_of<'a, P: Copy>(old: &Entries<'a, P>, part: Part) -> Entries<'a, P>
    requires { part.at + part.kept.rows ≤ length old.now.rows.now }
    ensures rows { result.rows.now ≡ take part.kept.rows (drop part.at old.now.rows.now) }
    ensures actions { result.actions.now ≡ take part.kept.rows (drop part.at old.now.actions.now) }
{
    let to = part.at + part.kept.rows;
    Entries {
        rows: &old.rows[part.at..to],
        actions: &old.actions[part.at..to],
    }
}

/// Copies the rows of a part to the lists' start.
fn copy_part<P: Copy>(lists: &mut Lists<'_, P>, old: &Entries<'_, P>, part: Part) -> Kept
    requires within { part.at + part.kept.rows ≤ length old.now.rows.now }
    requires room { part.kept.rows ≤ length lists.old.rows.now }
    ensures copied { kept_at lists.new.rows.now lists.new.actions.now 0 result ≡ held old.now.rows.now old.now.actions.now part }
    ensures kept { result ≡ part.kept }
    ensures same { SameLists lists.old lists.new }
{
    let from = rows_of(old, part);
    lists.rows[..part.kept.rows].copy_from_slice(from.rows);
    lists.actions[..part.kept.rows].copy_from_slice(from.actions);
    part.kept
}

/// Joins two pieces whose rows are among the old ones. The lists may hold a row for each mark.
fn join_rows<M: Machine>(
    source: &Source<'_, M>,
    old: &Entries<'_, M::Plain>,
    lists: &mut Lists<'_, M::Plain>,
    left: Part,
    right: Part,
) -> Kept
    requires room { left.marks + right.marks ≤ length lists.old.rows.now }
    requires within { (left.at + left.kept.rows ≤ length old.now.rows.now) × (right.at + right.kept.rows ≤ length old.now.rows.now) }
    requires few { (left.kept.rows ≤ left.marks - 1) × (right.kept.rows ≤ right.marks - 1) }
    requires rule { RowRule source.now.file.now old.now.rows.now left.at left.kept.rows × RowRule source.now.file.now old.now.rows.now right.at right.kept.rows }
    ensures joined { kept_at lists.new.rows.now lists.new.actions.now 0 result ≡ joined_at source.now.file.now (stored (M.model source.now.machine.now)) (ends_of left) (ends_of right) (held old.now.rows.now old.now.actions.now left) (held old.now.rows.now old.now.actions.now right) }
    ensures few { result.rows ≤ left.marks + right.marks - 1 }
    ensures rule { FirstInside source.now.file.now lists.new.rows.now result.rows }
    ensures same { SameLists lists.old lists.new }
{
    if left.marks == 0 {
        return copy_part(lists, old, right);
    }
    let copied = copy_part(lists, old, left);
    if right.marks == 0 {
        return copied;
    }
    let between = put_stretch(source, lists, copied, left.last, right.first);
    put(
        source,
        lists,
        between,
        &rows_of(old, right),
        right.kept.fault,
    )
}

/// The same, into two lists of one length.
fn join_into<M: Machine>(
    source: &Source<'_, M>,
    old: &Entries<'_, M::Plain>,
    rows: &mut [Row],
    actions: &mut [M::Plain],
    left: Part,
    right: Part,
) -> Kept
    requires sizes { length rows.old ≡ length actions.old }
    requires room { left.marks + right.marks ≤ length rows.old }
    requires within { (left.at + left.kept.rows ≤ length old.now.rows.now) × (right.at + right.kept.rows ≤ length old.now.rows.now) }
    requires few { (left.kept.rows ≤ left.marks - 1) × (right.kept.rows ≤ right.marks - 1) }
    requires rule { RowRule source.now.file.now old.now.rows.now left.at left.kept.rows × RowRule source.now.file.now old.now.rows.now right.at right.kept.rows }
    ensures joined { kept_at rows.new actions.new 0 result ≡ joined_at source.now.file.now (stored (M.model source.now.machine.now)) (ends_of left) (ends_of right) (held old.now.rows.now old.now.actions.now left) (held old.now.rows.now old.now.actions.now right) }
    ensures few { result.rows ≤ left.marks + right.marks - 1 }
    ensures rule { FirstInside source.now.file.now rows.new result.rows }
{
    let mut lists = Lists { rows, actions };
    join_rows(source, old, &mut lists, left, right)
}

/// Joins two pieces whose rows lie below `used`: the new piece's rows are written from there on.
pub fn join<M: Machine>(
    source: &Source<'_, M>,
    rows: &mut [Row],
    actions: &mut [M::Plain],
    used: usize,
    left: Part,
    right: Part,
) -> Kept
    requires room { (used + (left.marks + right.marks) ≤ length rows.old) × (used + (left.marks + right.marks) ≤ length actions.old) }
    requires below { (left.at + left.kept.rows ≤ used) × (right.at + right.kept.rows ≤ used) }
    requires few { (left.kept.rows ≤ left.marks - 1) × (right.kept.rows ≤ right.marks - 1) }
    requires rule { RowRule source.now.file.now rows.old left.at left.kept.rows × RowRule source.now.file.now rows.old right.at right.kept.rows }
    ensures left { Leaves used (left.marks + right.marks) (joined_at source.now.file.now (stored (M.model source.now.machine.now)) (ends_of left) (ends_of right) (held rows.old actions.old left) (held rows.old actions.old right)) result rows.old rows.new actions.old actions.new }
    ensures few { result.rows ≤ left.marks + right.marks - 1 }
    ensures rule { RowRule source.now.file.now rows.new used result.rows }
{
    let marks = left.marks + right.marks;
    let (old_rows, free_rows) = rows.split_at_mut(used);
    let (old_actions, free_actions) = actions.split_at_mut(used);
    let old = Entries {
        rows: old_rows,
        actions: old_actions,
    };
    join_into(
        source,
        &old,
        &mut free_rows[..marks],
        &mut free_actions[..marks],
        left,
        right,
    )
}
