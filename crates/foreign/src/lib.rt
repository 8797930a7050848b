//! A machine with a verdict of its own: it counts instead of looking for names. The calls that read and join pieces take it as it is.

#![tactic(auto)]

pub mod parities;
pub mod parity;

pub use parity::{Parity, ParityMachine};
