// The room of a group plan, which alone asks for memory.
ghost use Rattle.std.specs.Prelude.{◌≡◌, ◌≤◌, [], IfOk, vec_capacity};

use routes::route::{Group, Route};
use std::alloc::{AllocError, Global};

// Room for 496 routes and 32 groups: as many as 32 stations can have.
#[derive(Drop)]
pub struct GroupRoom {
    pub(crate) routes: Vec<Route>,
    pub(crate) groups: Vec<Group>,
    ghost empty: { (routes.items ≡ []) × (groups.items ≡ []) },
    ghost room: { (496 ≤ vec_capacity routes) × (32 ≤ vec_capacity groups) },
}

impl GroupRoom {
    // Reserves the room, and does nothing else.
    pub fn new(heap: Global) -> Result<GroupRoom, AllocError>
        ensures { IfOk result (λ m. (496 ≤ vec_capacity m.routes) × (32 ≤ vec_capacity m.groups)) }
    {
        let routes = Vec::with_capacity(heap, 496)?;
        let groups = Vec::with_capacity(heap, 32)?;
        Ok(GroupRoom { routes, groups })
    }
}
