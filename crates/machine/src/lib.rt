//! What a machine for path queries is: its interface and its laws, the path rule, and the queries of a text.

#![tactic(auto)]

pub mod laws;
pub mod machine;
mod measure;
mod name;
pub mod names;
mod plan;
pub mod position;
pub mod queries;
mod reader;
pub mod refusal;

pub use laws::path_rule;
pub use machine::Machine;
pub use names::Names;
pub use position::Position;
pub use queries::Queries;
pub use refusal::Refusal;
