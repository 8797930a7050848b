//! Reads one file in many ways, which must all tell the same.

#![tactic(auto)]

pub mod told;
pub mod ways;

pub use told::{Told, tell};
pub use ways::{agreed, from_left, from_right, same};
