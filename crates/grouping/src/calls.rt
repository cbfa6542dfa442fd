// The calls of a group plan.
ghost use Rattle.std.specs.Prelude.{◌≡◌, ◌≤◌, OnErr, OnOk, is_ok, map, length};
ghost use Rattle.plans.specs.Meaning.{empty_meaning};
ghost use Rattle.routes.specs.Order.{ends};
ghost use Rattle.routes.specs.Groups.{told};
ghost use Rattle.routes.specs.Decomposition.{Decomposition};
ghost use Rattle.regrouping.specs.Laws.{RulesFinish};
ghost use Rattle.grouping.specs.Plan.{acceptable, acceptable_grouped, built, contents, given, group_meaning, nothing};

use crate::degrees::Degrees;
use crate::draft::Draft;
use crate::plan::GroupPlan;
use crate::refused::NotAPlan;
use crate::room::GroupRoom;
use routes::checks::{first_unordered, is_decomposition};
use routes::route::{Group, Route};

// Whether the stations and their routes make a plan.
fn is_acceptable(stations: u8, routes: &[Route]) -> bool
    ensures { result ≡ acceptable stations routes.now }
{
    stations <= 32 && routes.len() <= 496 && first_unordered(stations, routes).is_none()
}

impl GroupPlan {
    // The empty plan.
    pub fn new(room: GroupRoom) -> GroupPlan
        ensures contents { contents result ≡ nothing }
        ensures meaning { group_meaning (contents result) ≡ empty_meaning }
    {
        let GroupRoom { routes, groups } = room;
        GroupPlan {
            draft: Draft {
                stations: 0,
                routes,
                groups,
                degrees: Degrees::count(&[]),
            },
        }
    }

    // The routes, in ascending order, each with its group's number.
    pub fn routes(&self) -> &[Route]
        ensures { result.now ≡ (contents self.now).routes }
    {
        &self.draft.routes
    }

    // The groups, by their numbers: an edge decomposition of the routes.
    pub fn groups(&self) -> &[Group]
        ensures groups { result.now ≡ (contents self.now).groups }
        ensures told { map told result.now ≡ map told (contents self.now).groups }
        ensures decomposition { Decomposition (contents self.now).routes result.now }
    {
        &self.draft.groups
    }

    // Groups the routes anew, by the three rules; the groups held before play no part.
    pub fn regroup(&mut self)
        ensures built { contents self.new ≡ built (contents self.old).stations (contents self.old).routes }
        ensures stations { (contents self.new).stations ≡ (contents self.old).stations }
        ensures same { ends (contents self.new).routes ≡ ends (contents self.old).routes }
        ensures decomposition { Decomposition (contents self.new).routes (contents self.new).groups }
        ensures few { length (contents self.new).groups ≤ 32 }
        ensures finish { RulesFinish (contents self.old).stations (contents self.old).routes }
    {
        self.draft.regroup();
    }

    // Takes the stations, their routes and their groups in place of all that the plan held; nothing is altered where they make no plan.
    pub fn fill(&mut self, stations: u8, routes: &[Route], groups: &[Group]) -> Result<(), NotAPlan>
        ensures taken { is_ok result ≡ acceptable_grouped stations routes.now groups.now }
        ensures filled { OnOk result (contents self.new ≡ given stations routes.now groups.now) }
        ensures refused { OnErr result (self.new ≡ self.old) }
    {
        if !is_acceptable(stations, routes) {
            return Err(NotAPlan);
        }
        if groups.len() > 32 || !is_decomposition(routes, groups) {
            return Err(NotAPlan);
        }
        self.draft.put(stations, routes, groups);
        Ok(())
    }

    // Takes the stations and their routes, and groups them by the three rules; the group numbers of the given routes play no part.
    pub fn fill_routes(&mut self, stations: u8, routes: &[Route]) -> Result<(), NotAPlan>
        ensures taken { is_ok result ≡ acceptable stations routes.now }
        ensures filled { OnOk result (contents self.new ≡ built stations routes.now) }
        ensures refused { OnErr result (self.new ≡ self.old) }
    {
        if !is_acceptable(stations, routes) {
            return Err(NotAPlan);
        }
        self.draft.put(stations, routes, &[]);
        self.draft.regroup();
        Ok(())
    }
}
