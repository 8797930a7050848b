//! What a whole file's piece answers: a fault, or the matches of its rows.

#![tactic(auto)]

pub mod answering;
pub mod closing;
pub mod matching;

pub use answering::{count_answer, write_answer};
pub use closing::ending;
