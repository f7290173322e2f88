//! The core table: eight cores, where each stands, and what is done to one core's record.

#![tactic(auto)]

pub mod place;
mod record;
mod refusal;
pub mod table;
