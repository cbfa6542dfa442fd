//! Group plans: routes between stations, each in one group, a star or a triangle, and the group's number is the route's dial.
#![tactic(auto)]

mod calls;
mod degrees;
mod draft;
mod filling;
pub mod pairs;
pub mod plan;
pub mod refused;
pub mod room;
mod search;
mod steps;
