//! A file read in pieces: a job, and its calls.

#![tactic(auto)]

pub mod answer;
pub mod job;
pub mod piece;

pub use answer::Answer;
pub use job::Job;
pub use piece::Piece;
