// The checks of routes and groups: the first route out of order, the first that does not fit its
// group, the first group that is not whole.
ghost use Rattle.std.specs.Prelude.{◌≡◌, ◌<◌, ◌↔◌, true, length, None, Decides};
ghost use Rattle.routes.specs.Tests.{LowestFailing};
ghost use Rattle.routes.specs.Order.{ends, ordered, in_order, first_unordered};
ghost use Rattle.routes.specs.Groups.{has_side, whole, placed_at, whole_at, first_misplaced, first_incomplete, decomposed};
ghost use Rattle.routes.specs.Members.{Notes};
ghost use Rattle.routes.specs.Decomposition.{Decomposition};

use crate::members::Members;
use crate::route::{Group, Route};

// The place of the first route that is not between two stations, its lower end first, or not after the route ahead of it.
pub fn first_unordered(stations: u8, routes: &[Route]) -> Option<usize>
    ensures place { result ≡ first_unordered stations routes.now }
    ensures lowest { LowestFailing (in_order stations routes.now) (length routes.now) result }
    ensures exact { (result ≡ None) ↔ (ordered stations (ends routes.now) ≡ true) }
{
    (0..routes.len()).find(|&place| !is_in_order(stations, routes, place))
}

// Whether the route at place i is between two stations, its lower end first, and after the route ahead of it.
fn is_in_order(stations: u8, routes: &[Route], i: usize) -> bool
    requires { i < length routes.now }
    ensures { result ≡ in_order stations routes.now i }
{
    routes[i].is_inside(stations) && (i == 0 || routes[i - 1].before(routes[i]))
}

// The place of the first route whose group is not there, or has not the route's shape.
pub fn first_misplaced(routes: &[Route], groups: &[Group]) -> Option<usize>
    ensures place { result ≡ first_misplaced routes.now groups.now }
    ensures lowest { LowestFailing (placed_at routes.now groups.now) (length routes.now) result }
{
    routes.iter().position(|route| !route.is_placed(groups))
}

// The lowest group that has not the routes that it must have.
pub fn first_incomplete(routes: &[Route], groups: &[Group]) -> Option<usize>
    ensures place { result ≡ first_incomplete routes.now groups.now }
    ensures lowest { LowestFailing (whole_at routes.now groups.now) (length groups.now) result }
{
    // Where none are given the routes are not walked over.
    if groups.is_empty() {
        return None;
    }
    let members = Members::of(routes);
    groups.iter().enumerate().position(|(number, group)| !group.is_whole(number, routes, &members))
}

// Whether the groups are an edge decomposition of the routes.
pub fn is_decomposition(routes: &[Route], groups: &[Group]) -> bool
    ensures test { result ≡ decomposed routes.now groups.now }
    ensures exact { Decides result (Decomposition routes.now groups.now) }
{
    first_misplaced(routes, groups).is_none() && first_incomplete(routes, groups).is_none()
}

impl Group {
    // Whether the group of this number has the routes that it must have: one at least of a star, the three of a triangle.
    fn is_whole(self, number: usize, routes: &[Route], members: &Members) -> bool
        requires { Notes members.now.present routes.now }
        ensures { result ≡ whole self number routes.now }
    {
        match self {
            Group::Star(_) => members.has(number),
            Group::Triangle(a, b, c) => {
                has_side(routes, number, a, b)
                    && has_side(routes, number, a, c)
                    && has_side(routes, number, b, c)
            }
        }
    }
}

// Whether the group of this number has the side from a to b.
fn has_side(routes: &[Route], number: usize, a: u8, b: u8) -> bool
    ensures { result ≡ has_side routes.now number a b }
{
    routes
        .iter()
        .any(|route| route.is_side(a, b) && route.is_in(number))
}
