//! The program's work: an input's file is read in pieces, cut where the input says, and what came of it is listed.

#![tactic(auto)]

pub mod answering;
pub mod printing;

pub use answering::answer_input;
pub use listing::listing_of;
pub use printing::print_of;
pub use request::Stop;
pub use solving::{Outcome, outcome_of, plan_calls, solve};
