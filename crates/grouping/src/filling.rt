// A draft that takes given routes and groups.
ghost use Rattle.std.specs.Prelude.{◌≡◌, ◌≤◌, length, vec_capacity};
ghost use Rattle.regrouping.specs.Steps.{Ready, work};
ghost use Rattle.grouping.specs.Draft.{SameRoom, drawn};

use crate::degrees::Degrees;
use crate::draft::Draft;
use routes::route::{Group, Route};

// Puts the items into a Vec that has room for them, in place of its own.
fn refill<T: Copy>(to: &mut Vec<T>, items: &[T])
    requires { length items.now ≤ vec_capacity to.old }
    ensures items { to.new.items ≡ items.now }
    ensures capacity { vec_capacity to.new ≡ vec_capacity to.old }
{
    to.clear();
    // One after another, as extend_from_slice does not promise that it asks for no memory.
    for item in items {
        to.push_reserved(*item);
    }
}

impl Draft {
    // Takes these in place of all that the draft held.
    pub(crate) fn put(&mut self, stations: u8, routes: &[Route], groups: &[Group])
        requires { Ready stations (work routes.now groups.now) }
        ensures stations { self.new.stations ≡ stations }
        ensures drawn { drawn self.new ≡ work routes.now groups.now }
        ensures capacity { SameRoom self.old self.new }
    {
        refill(&mut self.routes, routes);
        refill(&mut self.groups, groups);
        self.stations = stations;
        self.degrees = Degrees::count(routes);
    }
}
