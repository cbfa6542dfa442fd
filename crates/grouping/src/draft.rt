// A group plan in the making.
ghost use Rattle.std.specs.Prelude.{◌≡◌, ◌+◌, ◌≤◌, true, length, vec_capacity};
ghost use Rattle.routes.specs.Order.{ends, ordered};
ghost use Rattle.regrouping.specs.Table.{Counted};
ghost use Rattle.regrouping.specs.Steps.{live};

use crate::degrees::Degrees;
use routes::route::{Group, Route};

// The stations, the routes in ascending order and the groups written so far; beside the routes, how many of each station remain, that is, have no group yet.
// Each group takes the last remaining routes of a station, so there is a place for one group for each station that has some left.
#[derive(Drop)]
pub struct Draft {
    pub(crate) stations: u8,
    pub(crate) routes: Vec<Route>,
    pub(crate) groups: Vec<Group>,
    pub(crate) degrees: Degrees,
    ghost few: { (stations ≤ 32) × (length routes.items ≤ 496) },
    ghost room: { (496 ≤ vec_capacity routes) × (32 ≤ vec_capacity groups) },
    ghost ordered: { ordered stations (ends routes.items) ≡ true },
    ghost places: { length groups.items + live routes.items stations ≤ 32 },
    ghost counted: { Counted degrees.counts routes.items },
}
