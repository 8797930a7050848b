//! The program's inputs: how they are read, and what is printed for them.

#![tactic(auto)]

#[cfg(test)]
mod listings;
#[cfg(test)]
mod requests;
