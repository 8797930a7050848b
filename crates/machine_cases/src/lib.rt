//! The two machines on texts and paths, held to each other and to what the path rule says.

#![tactic(auto)]

#[cfg(test)]
mod tests;
