//! A table machine is made.
ghost use Rattle.std.specs.Prelude.{◌≡◌, ℕ, false, List, replicate, MatchOption, MatchResult};
ghost use Rattle.machine.specs.Asked.{queries_of, listed_names};
ghost use Rattle.table.specs.declared.action.TableAction.{TableAction};
ghost use Rattle.table.specs.Tables.{tabled};
ghost use Rattle.table.specs.Making.{TooMany, TableOf, Tabled, TableRefused};

use crate::explore::explore;
use crate::states::States;
use crate::table::TableMachine;
use machine::{Names, Queries, Refusal};
use positions::{Lines, Moves, deep_mask, start_mask};

impl TableMachine {
    /// The machine of no queries, which marks nothing.
    pub fn new() -> TableMachine
        ensures verdict { (path : List (List ℕ)) → (tabled result).verdict path ≡ replicate 8 false }
        ensures marks { (a : TableAction) → (tabled result).marks a ≡ replicate 8 false }
        ensures stays { (n : List ℕ) → (tabled result).action n ≡ (tabled result).stay }
    {
        let empty = Lines::none();
        TableMachine {
            names: Names::none(),
            states: States::none(),
            lines: empty,
        }
    }

    fn of(queries: &Queries) -> Option<TableMachine>
        ensures { MatchOption result (TooMany (listed_names queries.now) (queries_of queries.now)) (TableOf queries.now) }
    {
        let stays = deep_mask(queries.positions());
        let moves = Moves::of(queries, stays);
        let start = start_mask(queries.positions());
        let states = explore(&moves, start, queries.name_count() + 1)?;
        let lines = Lines::of(queries);
        Some(TableMachine {
            names: queries.names(),
            states,
            lines,
        })
    }

    /// The machine of the text's queries. A refused text leaves the machine as it was.
    pub fn make(&mut self, text: &[u8]) -> Result<(), Refusal>
        ensures { MatchResult result (λ _. Tabled text.now self.new) (λ why. TableRefused text.now why × (self.new ≡ self.old)) }
    {
        let queries = Queries::read(text)?;
        *self = TableMachine::of(&queries).ok_or(Refusal::TooManySets)?;
        Ok(())
    }
}
