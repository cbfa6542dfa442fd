//! Text, and what it is added to: a vector whose room was reserved, a caller's buffer, or a measure of
//! how much room it would leave.
#![tactic(auto)]

pub mod cursor;
pub mod measure;
pub mod number;
pub mod refused;
pub mod sink;
mod vector;
