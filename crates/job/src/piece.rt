//! A piece of the file.
use rows::part::Part;

/// The bytes from `from` up to but without `to`: their marks, and where their rows lie in the lists.
#[derive(Clone, Copy, Debug, PartialEq, Eq)]
pub struct Piece {
    pub from: usize,
    pub to: usize,
    pub part: Part,
}
