//! The matches of rows: counted, and written into a list.
ghost use Rattle.std.specs.Prelude.{◌≡◌, ◌+◌, ◌*◌, ◌<◌, ◌≤◌, length};
ghost use Rattle.rows.specs.Places.{stored, paired};
ghost use Rattle.rows.specs.Lists.{splice};
ghost use Rattle.answers.specs.Own.{matches_at};
ghost use Rattle.answers.specs.Finish.{row_matches};

use answers::Match;
use machine::Machine;
use rows::Entries;

/// The queries that a plain form's action marks.
pub fn marked<M: Machine>(m: &M, plain: &M::Plain) -> [bool; 8]
    ensures { result ≡ (stored (M.model m.now)).marks plain.now }
{
    let action = m.back(plain);
    m.marks(&action)
}

/// How many queries are in a set.
pub fn count_set(set: &[bool; 8]) -> usize
    ensures number { result ≡ length (matches_at 0 0 set.now) }
    ensures few { result ≤ 8 }
{
    set.iter().map(|marked| usize::from(*marked)).sum()
}

/// How many matches rows have.
pub fn count_matches<M: Machine>(m: &M, entries: &Entries<'_, M::Plain>) -> usize
    requires few { length entries.now.rows.now ≤ 4294967296 }
    ensures number { result ≡ length (row_matches (stored (M.model m.now)) (paired entries.now.rows.now entries.now.actions.now)) }
    ensures few { result ≤ 8 * length entries.now.rows.now }
{
    let mut n = 0;
    for plain in entries.actions {
        n += count_set(&marked(m, plain));
    }
    n
}

/// Writes a match at `place` for each query of a set, lower queries first, from `at` on, and says where they end.
pub fn write_set(matches: &mut [Match], at: usize, place: u32, set: &[bool; 8]) -> usize
    requires { at + length (matches_at place 0 set.now) ≤ length matches.old }
    ensures written { matches.new ≡ splice at (matches_at place 0 set.now) matches.old }
    ensures end { result ≡ at + length (matches_at place 0 set.now) }
{
    let mut n = at;
    for (query, marked) in set.iter().enumerate() {
        if *marked {
            matches[n] = Match {
                place,
                query: query as u8,
            };
            n += 1;
        }
    }
    n
}

/// Writes the matches of rows in their order, from `at` on, and says where they end.
pub fn write_matches<M: Machine>(
    m: &M,
    entries: &Entries<'_, M::Plain>,
    matches: &mut [Match],
    at: usize,
) -> usize
    requires { at + length (row_matches (stored (M.model m.now)) (paired entries.now.rows.now entries.now.actions.now)) ≤ length matches.old }
    ensures written { matches.new ≡ splice at (row_matches (stored (M.model m.now)) (paired entries.now.rows.now entries.now.actions.now)) matches.old }
    ensures end { result ≡ at + length (row_matches (stored (M.model m.now)) (paired entries.now.rows.now entries.now.actions.now)) }
{
    let mut n = at;
    for (row, plain) in entries.rows.iter().zip(entries.actions) {
        n = write_set(matches, n, row.place, &marked(m, plain));
    }
    n
}
