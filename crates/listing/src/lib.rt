//! The text of what came of a request.

#![tactic(auto)]

pub mod listing;

pub use listing::listing_of;
