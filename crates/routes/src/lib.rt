//! Routes between stations, the groups that they are split into, and the checks that tell whether the groups are an edge decomposition.
#![tactic(auto)]

pub mod checks;
mod members;
pub mod route;
