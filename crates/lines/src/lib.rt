//! The lines of the day sheet: one call adds one line to a text, or writes it into a caller's buffer.
#![tactic(auto)]

pub mod line;
mod parts;
