ghost use Rattle.foreign.specs.Parities.{parities};
ghost use Rattle.foreign.specs.Laws.{keeps_laws};

use crate::parity::{Parity, ParityMachine};
use machine::Machine;

impl Machine for ParityMachine {
    type Action = Parity;

    type Plain = u8;

    ghost model = { parities };

    ghost lawful = { keeps_laws };

    fn stay(&self) -> Parity {
        Parity {
            names: false,
            bytes: false,
        }
    }

    fn action_of(&self, name: &[u8]) -> Parity {
        Parity {
            names: true,
            bytes: name.len() % 2 == 1,
        }
    }

    fn then(&self, a: &Parity, b: &Parity) -> Parity {
        Parity {
            names: a.names != b.names,
            bytes: a.bytes != b.bytes,
        }
    }

    fn marks(&self, a: &Parity) -> [bool; 8] {
        [!a.names, !a.bytes, false, false, false, false, false, false]
    }

    fn plain(&self, a: &Parity) -> u8 {
        u8::from(a.names) + 2 * u8::from(a.bytes)
    }

    fn back(&self, p: &u8) -> Parity {
        Parity {
            names: *p % 2 == 1,
            bytes: *p / 2 % 2 == 1,
        }
    }
}
