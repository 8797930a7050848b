//! What a piece's stretches came to, and where its rows stand.
use crate::row::PieceFault;

/// How many rows were kept, and the fault that they led to.
#[derive(Clone, Copy, Debug, PartialEq, Eq)]
pub struct Kept {
    pub rows: usize,
    pub fault: Option<PieceFault>,
}

/// A piece's marks, the place of its first row in the lists, and what it keeps there.
#[derive(Clone, Copy, Debug, PartialEq, Eq)]
pub struct Part {
    pub first: usize,
    pub last: usize,
    pub marks: usize,
    pub at: usize,
    pub kept: Kept,
}
