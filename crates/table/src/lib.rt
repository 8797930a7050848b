//! The table machine: its states are the sets of positions that arise, and its action leads each state to one.

#![tactic(auto)]

mod action;
mod explore;
mod fill;
mod filling;
mod found;
mod laws;
mod make;
mod search;
mod states;
mod table;
pub mod tabled;

pub use action::TableAction;
pub use laws::closure_finds;
pub use table::TableMachine;
