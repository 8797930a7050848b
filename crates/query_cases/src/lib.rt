//! Texts of queries at the edges of what is accepted.

#![tactic(auto)]

#[cfg(test)]
mod tests;
