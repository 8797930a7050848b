ghost use Rattle.std.specs.Prelude.{◌≡◌, ◌+◌, ◌*◌, ◌<◌, set};
ghost use Rattle.table.specs.Tables.{set_at, tabled};
ghost use Rattle.table.specs.Laws.{keeps_laws};

use crate::action::TableAction;
use crate::found::Found;
use crate::table::TableMachine;
use machine::Machine;
use std::array;

impl Found {
    /// The set of a state, and none for an unused one.
    pub fn set(&self, state: u8) -> u32
        ensures { result ≡ set_at self.now state }
    {
        self.seen().get(state as usize).copied().unwrap_or(0)
    }
}

impl Machine for TableMachine {
    type Action = TableAction;

    type Plain = [u8; 32];

    ghost model = { tabled };

    ghost lawful = { keeps_laws };

    fn stay(&self) -> TableAction {
        TableAction {
            to: array::from_fn(|i| i as u8),
        }
    }

    fn action_of(&self, name: &[u8]) -> TableAction {
        let column = self.names.column(name);
        let from = column * 32;
        let mut to = [0; 32];
        to[0..32].copy_from_slice(&self.states.columns[from..from + 32]);
        TableAction { to }
    }

    fn then(&self, a: &TableAction, b: &TableAction) -> TableAction {
        TableAction {
            to: array::from_fn(|i| b.to[a.to[i] as usize]),
        }
    }

    fn marks(&self, a: &TableAction) -> [bool; 8] {
        self.lines.marked(self.states.found.set(a.to[0]))
    }

    fn plain(&self, a: &TableAction) -> [u8; 32] {
        a.to
    }

    fn back(&self, p: &[u8; 32]) -> TableAction {
        TableAction {
            to: array::from_fn(|i| p[i] % 32),
        }
    }
}
