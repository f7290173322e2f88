//! The listing: what a run answered, one line for each thing done.

#![tactic(auto)]

pub mod lines;
mod pushes;
#[cfg(test)]
mod tests;
pub mod whole;
