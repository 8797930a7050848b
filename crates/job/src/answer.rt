//! What a finished piece answers.
use answers::Fault;

/// What is wrong with the file, or how many matches it has.
#[derive(Clone, Copy, Debug, PartialEq, Eq)]
pub enum Answer {
    Fault(Fault),
    Matches(usize),
}
