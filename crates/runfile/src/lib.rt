//! The run file taken apart: operation records, then calls, then a trailer that points back.

#![tactic(auto)]

pub mod file;
pub mod input;
pub mod reader;
