//! A file read in pieces by a plan of calls, and what came of it.

#![tactic(auto)]

pub mod outcome;
pub mod plan;
pub mod solving;

pub use outcome::{Outcome, outcome_of};
pub use plan::plan_calls;
pub use solving::solve;
