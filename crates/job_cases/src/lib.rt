//! Calls at the edges of their questions, and files worked through.

#![tactic(auto)]

#[cfg(test)]
mod asked;
#[cfg(test)]
mod changed;
#[cfg(test)]
mod texts;
#[cfg(test)]
mod turns;
#[cfg(test)]
mod worked;
