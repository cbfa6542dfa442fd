//! The day file: its layout, its check, its records, and its reading into a group plan.
#![tactic(auto)]

pub mod check;
pub mod file;
pub mod layout;
pub mod reading;
pub mod records;
pub mod refusal;
pub mod section;
mod tables;
