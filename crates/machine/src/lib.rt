//! The machine: up to 8 cores over any bank.

#![tactic(auto)]

mod index;
mod machine;
mod rules;
pub mod run;
mod seen;

pub use machine::{Machine, Receipt};
