//! Sets of the positions of queries, as masks: how a name moves them, and which queries they meet.

#![tactic(auto)]

mod building;
mod laws;
mod lines;
mod marking;
mod masks;
mod moves;

pub use laws::positions_lead;
pub use lines::Lines;
pub use marking::holds;
pub use masks::{deep_mask, fit_mask, fit_masks, rest_mask, start_mask};
pub use moves::Moves;
