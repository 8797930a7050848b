//! Tags good and bad, and the marks of parts.

#![tactic(auto)]

#[cfg(test)]
mod tests;
