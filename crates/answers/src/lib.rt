//! What a whole file answers, and why reading it in pieces gives the same.

#![tactic(auto)]

pub mod fault;
pub mod laws;
pub mod matches;

pub use fault::Fault;
pub use laws::{content_rule, pieces_join, worked_pieces};
pub use matches::Match;
