// The three rules, as steps that write groups.
ghost use Rattle.std.specs.Prelude.{◌≡◌, ◌<◌};
ghost use Rattle.std.specs.List.{AllByRecursion};
ghost use Rattle.regrouping.specs.Table.{Counted};
ghost use Rattle.regrouping.specs.Steps.{Inside, leaves, mark, opened, regrouped, round, rounds, star, start, triangles, write};
ghost use Rattle.grouping.specs.Draft.{Makes, SameRoom, TakesLast};

use crate::degrees::Degrees;
use crate::draft::Draft;
use routes::route::{Group, Route};

// Gives the group, by its number, to each remaining route that fits it; the route's ends have one remaining route less.
fn take_routes(routes: &mut [Route], degrees: &mut Degrees, group: Group, number: u8)
    requires inside { AllByRecursion (Inside 32) routes.old }
    requires counted { Counted degrees.old.counts routes.old }
    ensures marked { routes.new ≡ mark group number routes.old }
    ensures counted { Counted degrees.new.counts routes.new }
{
    // A slice and not the draft: while routes change one by one, what a draft holds is not yet so.
    for r in routes.iter_mut() {
        if r.group.is_none() && r.fits(group) {
            degrees.one_less(*r);
            r.group = Some(number);
        }
    }
}

// Marks every route as one without a group.
fn reopen_routes(routes: &mut [Route])
    ensures { routes.new ≡ opened routes.old }
{
    // A slice here too, as a draft counts what remains.
    for r in routes.iter_mut() {
        r.group = None;
    }
}

impl Draft {
    // Writes one group more, with the remaining routes that fit it.
    pub(crate) fn write_group(&mut self, group: Group)
        requires { TakesLast group self.old }
        ensures made { Makes (λ n. write group) self.old self.new }
        ensures capacity { SameRoom self.old self.new }
    {
        let number = self.groups.len() as u8;
        take_routes(&mut self.routes, &mut self.degrees, group, number);
        self.groups.push_reserved(group);
    }

    // The leaf rule: while a station has exactly one remaining route, a star at the other end of the lowest such station's route.
    pub(crate) fn take_leaves(&mut self)
        ensures made { Makes (λ n. leaves n n) self.old self.new }
        ensures capacity { SameRoom self.old self.new }
    {
        while let Some(c) = self.lowest_leaf().and_then(|s| self.other_end(s)) {
            self.write_group(Group::Star(c));
        }
    }

    // The loose triangle rule: the first loose triangle, while there is one.
    pub(crate) fn take_triangles(&mut self)
        ensures made { Makes (λ n. triangles n n) self.old self.new }
        ensures capacity { SameRoom self.old self.new }
    {
        // A loop beside that of the leaf rule: one loop over a rule that is handed in would be longer than both.
        while let Some((a, b, c)) = self.first_triangle() {
            self.write_group(Group::Triangle(a, b, c));
        }
    }

    // A star at c, where c has a remaining route.
    pub(crate) fn star_at(&mut self, c: u8)
        requires { c < 32 }
        ensures made { Makes (λ n. star c) self.old self.new }
        ensures capacity { SameRoom self.old self.new }
    {
        if self.degree(c) > 0 {
            self.write_group(Group::Star(c));
        }
    }

    // The three rules in turn, once; of the heaviest route's ends the lower comes first.
    pub(crate) fn one_round(&mut self)
        ensures made { Makes round self.old self.new }
        ensures capacity { SameRoom self.old self.new }
    {
        self.take_leaves();
        self.take_triangles();
        if let Some(i) = self.best_route() {
            let r = self.routes[i];
            self.star_at(r.low);
            self.star_at(r.high);
        }
    }

    // The three rules in turn, while a route remains.
    pub(crate) fn all_rounds(&mut self)
        ensures made { Makes (λ n. rounds n n) self.old self.new }
        ensures capacity { SameRoom self.old self.new }
    {
        while self.any_remains() {
            self.one_round();
        }
    }

    // Makes every route one that remains, and forgets the groups.
    pub(crate) fn reopen(&mut self)
        ensures made { Makes (λ n w. start w.table) self.old self.new }
        ensures capacity { SameRoom self.old self.new }
    {
        reopen_routes(&mut self.routes);
        self.groups.clear();
        self.degrees = Degrees::count(&self.routes);
    }

    // Groups the routes anew.
    pub(crate) fn regroup(&mut self)
        ensures made { Makes (λ n w. regrouped n w.table) self.old self.new }
        ensures capacity { SameRoom self.old self.new }
    {
        self.reopen();
        self.all_rounds();
    }
}
