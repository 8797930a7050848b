//! The matches of a whole file's rows, with the row that its last stretch adds.
ghost use Rattle.std.specs.Prelude.{◌≡◌, ◌≤◌, ◌++◌, length};
ghost use Rattle.rows.specs.Places.{stored, paired};
ghost use Rattle.rows.specs.Lists.{splice};
ghost use Rattle.answers.specs.Finish.{row_matches};
ghost use Rattle.finishing.specs.Ends.{last_row};

use crate::matching::{count_matches, count_set, marked, write_matches, write_set};
use answers::Match;
use machine::Machine;
use rows::{Entries, Row};

/// How many matches a file's rows and the row that its last stretch adds have.
pub fn count_answer<M: Machine>(
    m: &M,
    entries: &Entries<'_, M::Plain>,
    more: Option<(Row, M::Plain)>,
) -> usize
    requires { length entries.now.rows.now ≤ 4294967296 }
    ensures { result ≡ length (row_matches (stored (M.model m.now)) (paired entries.now.rows.now entries.now.actions.now ++ last_row more)) }
{
    let n = count_matches(m, entries);
    match more {
        None => n,
        Some(last) => n + count_set(&marked(m, &last.1)),
    }
}

/// Writes those matches from the list's start.
pub fn write_answer<M: Machine>(
    m: &M,
    entries: &Entries<'_, M::Plain>,
    more: Option<(Row, M::Plain)>,
    matches: &mut [Match],
)
    requires { length (row_matches (stored (M.model m.now)) (paired entries.now.rows.now entries.now.actions.now ++ last_row more)) ≤ length matches.old }
    ensures { matches.new ≡ splice 0 (row_matches (stored (M.model m.now)) (paired entries.now.rows.now entries.now.actions.now ++ last_row more)) matches.old }
{
    let n = write_matches(m, entries, matches, 0);
    if let Some(last) = more {
        let _ = write_set(matches, n, last.0.place, &marked(m, &last.1));
    }
}
