//! The machine of relations: its action says of each pair of positions whether the first leads to the second.

#![tactic(auto)]

mod action;
mod compose;
mod make;
pub mod related;
mod relation;

pub use action::RelationAction;
pub use relation::RelationMachine;
