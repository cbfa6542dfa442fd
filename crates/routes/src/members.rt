// Which group numbers have a route.
ghost use Rattle.std.specs.Prelude.{◌≡◌, false, slice_index_or};
ghost use Rattle.routes.specs.Members.{Notes};

use crate::route::Route;

// For each number that a route can name, whether it has a route: so a star is judged without a walk over the routes.
#[derive(Drop)]
pub(crate) struct Members {
    present: [bool; 256],
}

impl Members {
    // Which group numbers have a route, told in one pass over the routes.
    pub(crate) fn of(routes: &[Route]) -> Members
        ensures { Notes result.present routes.now }
    {
        let mut present = [false; 256];
        for route in routes {
            if let Some(number) = route.group {
                present[usize::from(number)] = true;
            }
        }
        Members { present }
    }

    // Whether the group of this number has a route.
    pub(crate) fn has(&self, number: usize) -> bool
        ensures { result ≡ slice_index_or self.now.present number false }
    {
        self.present.get(number).is_some_and(|present| *present)
    }
}
