//! Whether a file's rows end in a fault.
ghost use Rattle.std.specs.Prelude.{◌≡◌, ◌≤◌, length, None};
ghost use Rattle.rows.specs.Pieces.{Inside, put};
ghost use Rattle.rows.specs.Stretches.{lone, one, last_put};
ghost use Rattle.rows.specs.Places.{stored, paired};
ghost use Rattle.rows.specs.Lists.{ends_of};
ghost use Rattle.answers.specs.Finish.{finish};
ghost use Rattle.finishing.specs.Ends.{first_close_row, stray, AllClosed, AllInside, answered, open_content};

use answers::Fault;
use machine::Machine;
use rows::names::same_name;
use rows::part::Part;
use rows::places::last_open;
use rows::{Entries, Row, RowKind, Source};

/// Answers well if there is no Close row; the first one is a stray end tag.
fn no_stray(rows: &[Row]) -> Result<(), Fault>
    ensures { result ≡ stray (first_close_row rows.now) }
{
    match rows.iter().find(|row| row.kind == RowKind::Close) {
        None => Ok(()),
        Some(row) => Err(Fault::Stray {
            place: row.place as usize,
        }),
    }
}

/// Answers well if none of the first `n` rows is still open; the last one that is stays unclosed.
fn all_closed(rows: &[Row], n: usize) -> Result<(), Fault>
    requires { n ≤ length rows.now }
    ensures { AllClosed rows.now n result }
{
    match last_open(rows, n) {
        None => Ok(()),
        Some(i) => Err(Fault::Unclosed {
            place: rows[i].place as usize,
        }),
    }
}

/// What rows with no Close row among them answer where the file's last tag is the end tag `row`.
fn end_tag<M: Machine>(
    source: &Source<'_, M>,
    entries: &Entries<'_, M::Plain>,
    row: Row,
    plain: &M::Plain,
) -> Result<Option<(Row, M::Plain)>, Fault>
    requires rule { AllInside source.now.file.now entries.now.rows.now }
    requires own { Inside source.now.file.now row }
    requires kind { row.kind ≡ RowKind.Close }
    requires none { first_close_row entries.now.rows.now ≡ None }
    ensures { answered (stored (M.model source.now.machine.now)) (paired entries.now.rows.now entries.now.actions.now) result ≡ finish (stored (M.model source.now.machine.now)) (put source.now.file.now (stored (M.model source.now.machine.now)) (open_content (paired entries.now.rows.now entries.now.actions.now)) (lone row plain.now)) }
{
    let rows = entries.rows;
    let Some(base) = last_open(rows, rows.len()) else {
        return Err(Fault::Stray {
            place: row.place as usize,
        });
    };
    if !same_name(source.file, rows[base], row) {
        return Err(Fault::Mismatch {
            place: row.place as usize,
        });
    }
    all_closed(rows, base)?;
    Ok(None)
}

/// What rows with no Close row among them answer where the file's last stretch begins at `mark`. The row that it adds, if any, is handed back.
fn last_stretch<M: Machine>(
    source: &Source<'_, M>,
    entries: &Entries<'_, M::Plain>,
    mark: usize,
) -> Result<Option<(Row, M::Plain)>, Fault>
    requires rule { AllInside source.now.file.now entries.now.rows.now }
    requires none { first_close_row entries.now.rows.now ≡ None }
    ensures { answered (stored (M.model source.now.machine.now)) (paired entries.now.rows.now entries.now.actions.now) result ≡ finish (stored (M.model source.now.machine.now)) (put source.now.file.now (stored (M.model source.now.machine.now)) (open_content (paired entries.now.rows.now entries.now.actions.now)) (one source.now.file.now (stored (M.model source.now.machine.now)) (mark, length source.now.file.now))) }
{
    let (row, plain) = source.tag_row(mark, source.file.len())?;
    match row.kind {
        RowKind::Close => end_tag(source, entries, row, &plain),
        RowKind::Open => Err(Fault::Unclosed {
            place: row.place as usize,
        }),
        RowKind::Done => {
            all_closed(entries.rows, entries.rows.len())?;
            Ok(Some((row, plain)))
        }
    }
}

/// What the rows of a piece over the whole file answer: a fault, or else the row, if any, that its last stretch adds to its own.
pub fn ending<M: Machine>(
    source: &Source<'_, M>,
    entries: &Entries<'_, M::Plain>,
    part: Part,
) -> Result<Option<(Row, M::Plain)>, Fault>
    requires { AllInside source.now.file.now entries.now.rows.now }
    ensures { answered (stored (M.model source.now.machine.now)) (paired entries.now.rows.now entries.now.actions.now) result ≡ finish (stored (M.model source.now.machine.now)) (last_put source.now.file.now (stored (M.model source.now.machine.now)) (ends_of part) (record { rows = paired entries.now.rows.now entries.now.actions.now; fault = part.kept.fault })) }
{
    let rows = entries.rows;
    no_stray(rows)?;
    if let Some(found) = part.kept.fault {
        return Err(Fault::from(found));
    }
    if part.marks > 0 {
        return last_stretch(source, entries, part.last);
    }
    all_closed(rows, rows.len())?;
    Ok(None)
}
