//! What a piece of a file holds: rows, each with its action in a list beside, and perhaps a fault.

#![tactic(auto)]

pub mod lists;
pub mod names;
pub mod part;
pub mod places;
pub mod putting;
pub mod row;
pub mod tagging;

pub use lists::{Entries, Lists};
pub use row::{PieceFault, Row, RowKind};
pub use tagging::Source;
