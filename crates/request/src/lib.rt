//! What the program's input says: where to cut the file, the queries, and the file.

#![tactic(auto)]

pub mod cuts;
pub mod forms;
pub mod input;
pub mod lines;
pub mod refusal;
pub mod stop;

pub use forms::input_forms;
pub use input::{Request, read_request};
pub use refusal::InputRefusal;
pub use stop::Stop;
