//! What the queries' machines look up.
ghost use Rattle.std.specs.Prelude.{◌≡◌, ◌≤◌, length};
ghost use Rattle.std.specs.List.{AllByRecursion};
ghost use Rattle.machine.specs.Asked.{queries_of, listed_names};
ghost use Rattle.machine.specs.Limits.{most_lines, most_positions, most_names};
ghost use Rattle.machine.specs.Queries.{column, positions, ends, Listed};
ghost use Rattle.machine.specs.Views.{names_of};

use crate::names::Names;
use crate::position::Position;
use crate::queries::Queries;

impl Queries {
    /// The number of queries.
    pub fn count(&self) -> usize
        ensures number { result ≡ length (queries_of self.now) }
        ensures few { result ≤ most_lines }
    {
        self.plan.lines
    }

    /// The positions, query by query.
    pub fn positions(&self) -> &[Position]
        ensures list { result.now ≡ positions (listed_names self.now) (queries_of self.now) }
        ensures few { length result.now ≤ most_positions }
    {
        self.plan.positions()
    }

    /// The last position of each query.
    pub fn lasts(&self) -> &[usize]
        ensures list { result.now ≡ ends 0 (queries_of self.now) }
        ensures few { length result.now ≤ most_lines }
    {
        self.plan.lasts()
    }

    /// The names, in the order of first use; the steps use no other.
    pub fn names(&self) -> Names
        ensures list { names_of result ≡ listed_names self.now }
        ensures all { AllByRecursion (Listed (listed_names self.now)) (queries_of self.now) }
    {
        let names = self.plan.names;
        names
    }

    /// The number of names.
    pub fn name_count(&self) -> usize
        ensures number { result ≡ length (listed_names self.now) }
        ensures few { result ≤ most_names }
    {
        self.plan.names.count
    }

    /// One more than the name's place among the names, or 0 for an unlisted name.
    pub fn column(&self, name: &[u8]) -> usize
        ensures place { result ≡ column (listed_names self.now) name.now }
        ensures few { result ≤ most_names }
    {
        self.plan.names.column(name)
    }
}
