//! Rows, and the fault of a piece.
ghost use Rattle.std.specs.Prelude.{◌≡◌};
ghost use Rattle.rows.specs.Pieces.{kind_number, fault_number};
ghost use Rattle.rows.specs.declared.row.PieceFault.TheVariants.{BadTag, Mismatch};

use tags::TagFault;

#[derive(Clone, Copy, Debug, PartialEq, Eq)]
pub enum RowKind {
    /// An end tag whose start lies before the piece.
    Close = 1,
    /// A start tag still open.
    Open = 2,
    /// A closed start tag, or an empty tag.
    Done = 3,
}

impl RowKind {
    pub fn number(self) -> u8
        ensures { result ≡ kind_number self }
    {
        self as u8
    }
}

/// A tag of a piece: its mark's place, and how long its name is. The name itself stands in the file.
#[derive(Clone, Copy, Debug, PartialEq, Eq)]
pub struct Row {
    pub kind: RowKind,
    pub place: u32,
    pub name_len: u32,
}

impl Row {
    /// The fault of an end tag whose name is not that of the element it would close.
    pub fn mismatch(self) -> PieceFault
        ensures { result ≡ Mismatch self.place }
    {
        PieceFault::Mismatch {
            place: self.place as usize,
        }
    }
}

/// What is wrong with a piece, whatever stands around it.
#[derive(Clone, Copy, Debug, PartialEq, Eq)]
pub enum PieceFault {
    BadTag(TagFault),
    /// An end tag whose name is not that of the element it would close.
    Mismatch { place: usize },
}

impl PieceFault {
    pub fn number(self) -> u8
        ensures { result ≡ fault_number self }
    {
        match self {
            PieceFault::BadTag(_) => 101,
            PieceFault::Mismatch { .. } => 102,
        }
    }
}

impl From<TagFault> for PieceFault {
    ghost from_gives = { λ e r. r ≡ BadTag e };

    fn from(e: TagFault) -> PieceFault {
        PieceFault::BadTag(e)
    }
}
