ghost use Rattle.relation.specs.Relations.{related};
ghost use Rattle.relation.specs.Laws.{keeps_laws};

use crate::action::RelationAction;
use crate::compose::pick;
use crate::relation::RelationMachine;
use machine::Machine;
use std::array;

impl Machine for RelationMachine {
    type Action = RelationAction;

    type Plain = RelationAction;

    ghost model = { related };

    ghost lawful = { keeps_laws };

    fn stay(&self) -> RelationAction {
        RelationAction {
            rows: array::from_fn(|i| 1 << i),
        }
    }

    fn action_of(&self, name: &[u8]) -> RelationAction {
        let column = self.names.column(name);
        RelationAction {
            rows: array::from_fn(|i| self.moves.on(1 << i, column)),
        }
    }

    fn then(&self, a: &RelationAction, b: &RelationAction) -> RelationAction {
        RelationAction {
            rows: array::from_fn(|i| pick(a.rows[i], &b.rows)),
        }
    }

    fn marks(&self, a: &RelationAction) -> [bool; 8] {
        array::from_fn(|q| {
            let first = self.lines.first[q] as usize;
            self.lines.is_marked(q, a.rows[first])
        })
    }

    fn plain(&self, a: &RelationAction) -> RelationAction {
        *a
    }

    fn back(&self, p: &RelationAction) -> RelationAction {
        *p
    }
}
