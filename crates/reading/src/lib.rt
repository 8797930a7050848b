//! Reads the rows of a part of a file into lists.

#![tactic(auto)]

pub mod opens;
pub mod reading;

pub use reading::read;
