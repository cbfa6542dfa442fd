//! The whole day sheet: one function from a day file's bytes to the sheet's bytes.
#![tactic(auto)]

mod handovers;
mod questions;
pub mod room;
pub mod sheet;
