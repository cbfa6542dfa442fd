//! The texts that the programs print, each equal to its definition.
#![tactic(auto)]

mod floor;
pub mod floorplan;
pub mod room;
