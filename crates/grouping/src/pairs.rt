// The question of a pair, and the group plan as a plan.
ghost use Rattle.std.specs.Prelude.{◌≡◌, length, vec_items};
ghost use Rattle.regrouping.specs.Pairs.{route_from};
ghost use Rattle.regrouping.specs.Steps.{live};
ghost use Rattle.regrouping.specs.Table.{remains};
ghost use Rattle.grouping.specs.Plan.{contents, group_meaning};
ghost use Rattle.grouping.specs.Laws.{few_groups, group_lawful};

use crate::draft::Draft;
use crate::plan::GroupPlan;
use plans::plan::Plan;
use plans::turns::Turns;
use routes::route::Route;

impl Draft {
    // The route from low to high, by halving the ascending table.
    pub(crate) fn find_route(&self, low: u8, high: u8) -> Option<Route>
        ensures { result ≡ route_from (vec_items self.now.routes) low high }
    {
        // By hand, so that it ends at the route: the library's searches halve to the end, and some questions took them 1.8 times as long.
        let mut start = 0;
        let mut end = self.routes.len();
        while start < end {
            let mid = start + (end - start) / 2;
            let r = &self.routes[mid];
            if r.low == low && r.high == high {
                return Some(*r);
            }
            if r.low < low || (r.low == low && r.high < high) {
                start = mid + 1;
            } else {
                end = mid;
            }
        }
        None
    }

    // Whether the route from low to high is there and has no group yet.
    pub(crate) fn remains(&self, low: u8, high: u8) -> bool
        ensures { result ≡ remains (vec_items self.now.routes) low high }
    {
        self.find_route(low, high)
            .is_some_and(|r| r.group.is_none())
    }
}

impl Plan for GroupPlan {
    ghost meaning = { λ p. group_meaning (contents p) };

    ghost lawful = { λ p. group_lawful p.draft.stations p.draft.routes.items p.draft.groups.items p.draft.few.0 (few_groups (length p.draft.groups.items) (live p.draft.routes.items p.draft.stations) p.draft.places) p.draft.ordered p.decomposed };

    fn stations(&self) -> u8 {
        self.draft.stations
    }

    fn dials(&self) -> u8 {
        self.draft.groups.len() as u8
    }

    fn route(&self, a: u8, b: u8) -> Turns {
        self.draft
            .find_route(a.min(b), a.max(b))
            .and_then(|r| r.group)
            .map_or(Turns::NoRoute, Turns::One)
    }
}
