//! Joins two pieces of a file, within the lists that hold their rows.

#![tactic(auto)]

pub mod joining;

pub use joining::join;
