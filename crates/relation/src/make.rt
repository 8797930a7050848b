//! A machine of relations is made.
ghost use Rattle.std.specs.Prelude.{◌≡◌, ℕ, false, List, replicate, MatchResult};
ghost use Rattle.machine.specs.Asked.{Refused};
ghost use Rattle.relation.specs.declared.action.RelationAction.{RelationAction};
ghost use Rattle.relation.specs.Relations.{related};
ghost use Rattle.relation.specs.Making.{RelationOf, Related};

use crate::relation::RelationMachine;
use machine::{Names, Queries, Refusal};
use positions::{Lines, Moves, rest_mask};

impl RelationMachine {
    /// The machine of no queries, which marks nothing.
    pub fn new() -> RelationMachine
        ensures verdict { (path : List (List ℕ)) → (related result).verdict path ≡ replicate 8 false }
        ensures marks { (a : RelationAction) → (related result).marks a ≡ replicate 8 false }
        ensures stays { (n : List ℕ) → (related result).action n ≡ (related result).stay }
    {
        let empty = Lines::none();
        RelationMachine {
            names: Names::none(),
            moves: Moves::none(),
            lines: empty,
        }
    }

    fn of(queries: &Queries) -> RelationMachine
        ensures { RelationOf queries.now result }
    {
        let stays = rest_mask(queries.positions());
        let moves = Moves::of(queries, stays);
        let lines = Lines::of(queries);
        RelationMachine {
            names: queries.names(),
            moves,
            lines,
        }
    }

    /// The machine of the text's queries. A refused text leaves the machine as it was.
    pub fn make(&mut self, text: &[u8]) -> Result<(), Refusal>
        ensures { MatchResult result (λ _. Related text.now self.new) (λ why. Refused text.now why × (self.new ≡ self.old)) }
    {
        let queries = Queries::read(text)?;
        *self = RelationMachine::of(&queries);
        Ok(())
    }
}
