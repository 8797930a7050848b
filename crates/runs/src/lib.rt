//! What any list of calls of a job comes to.

#![tactic(auto)]

pub mod running;
pub mod steps;

pub use running::{every_run, make, run};
pub use steps::{Call, Reply, Step};
