//! What is wrong with a file.
ghost use Rattle.std.specs.Prelude.{◌≡◌};
ghost use Rattle.answers.specs.Faults.{fault_number, fault_place, from_piece};

use rows::PieceFault;
use tags::TagFault;

#[derive(Clone, Copy, Debug, PartialEq, Eq)]
pub enum Fault {
    BadTag(TagFault),
    /// An end tag whose name is not that of the last open element.
    Mismatch { place: usize },
    /// An end tag with no element open.
    Stray { place: usize },
    /// The file ends with this element, the last, still open.
    Unclosed { place: usize },
}

impl Fault {
    pub fn number(self) -> u8
        ensures { result ≡ fault_number self }
    {
        match self {
            Fault::BadTag(_) => 101,
            Fault::Mismatch { .. } => 102,
            Fault::Stray { .. } => 103,
            Fault::Unclosed { .. } => 104,
        }
    }

    /// The mark at which the fault stands.
    pub fn place(self) -> usize
        ensures { result ≡ fault_place self }
    {
        match self {
            Fault::BadTag(bad) => bad.mark,
            Fault::Mismatch { place } | Fault::Stray { place } | Fault::Unclosed { place } => place,
        }
    }
}

impl From<PieceFault> for Fault {
    ghost from_gives = { λ e r. r ≡ from_piece e };

    fn from(e: PieceFault) -> Fault {
        match e {
            PieceFault::BadTag(bad) => Fault::BadTag(bad),
            PieceFault::Mismatch { place } => Fault::Mismatch { place },
        }
    }
}
