// The check of a day file: its checks in order, up to the first that fails.
ghost use Rattle.std.specs.Prelude.{◌≡◌, ◌<◌, length, IfOk, IfSome};
ghost use Rattle.dayfile.specs.Check.{JudgesGroups, file_verdict, first_unfit, member_verdict, order_verdict, whole_verdict};
ghost use Rattle.dayfile.specs.Layout.{Reads};
ghost use Rattle.dayfile.specs.Tables.{groups_of, routes_of};
ghost use Rattle.dayfile.specs.Verdict.{TakenApart, packed, verdict_of};

use super::layout::{Layout, Sections, check_layout};
use super::records::Kind;
use super::refusal::FileRefusal;
use arrayvec::ArrayVec;
use refusals::Refusal;
use routes::checks::{first_incomplete, first_misplaced, first_unordered};
use routes::route::{Group, Route};

// The layout of a file that is in order, or the first check that fails.
#[tactic(auto, unfolding(crate::specs::Check::file_verdict, crate::specs::Check::tables_verdict))]
pub fn check_file(bytes: &[u8]) -> Result<Layout, FileRefusal>
    ensures verdict { verdict_of result ≡ file_verdict bytes.now }
    ensures layout { IfOk result (Reads bytes.now) }
    ensures groups { JudgesGroups bytes.now result }
{
    let sections = check_layout(bytes)?;
    let mut routes = ArrayVec::new();
    sections.put_routes(&mut routes);
    sections.check_order(&routes)?;
    let mut groups = ArrayVec::new();
    sections.put_groups(&mut groups)?;
    let tables = Tables {
        sections,
        routes: &routes,
        groups: &groups,
    };
    tables.check_members()?;
    tables.check_wholes()?;
    Ok(sections.layout)
}

// For C, which calls it through the static library `dayfile_c`: 0, or the refusal's number times 65,536 plus its place.
pub fn day_file_check(bytes: &[u8]) -> u32
    ensures packed { result ≡ packed (file_verdict bytes.now) }
    ensures apart { TakenApart (file_verdict bytes.now) result }
{
    check_file(bytes).err().map_or(0, u32::from)
}

impl<'a> Sections<'a> {
    // Each of the file's routes is between two stations, and after the one ahead of it.
    #[tactic(auto, using(crate::proofs::Stages::section_steps), unfolding(crate::specs::Check::order_verdict))]
    fn check_order(&self, routes: &[Route]) -> Result<(), FileRefusal>
        requires its_routes { routes.now ≡ routes_of self.now.bytes.now }
        ensures { verdict_of result ≡ order_verdict self.now.bytes.now }
    {
        let found = first_unordered(self.layout.stations, routes);
        self.span(Kind::Routes).refuse(Refusal::RouteOrder, found)
    }
}

// The sections of a file, with its routes and the groups that it gives.
#[derive(Clone, Copy)]
struct Tables<'a> {
    sections: Sections<'a>,
    routes: &'a [Route],
    groups: &'a [Group],
    ghost its_routes: { routes.now ≡ routes_of sections.bytes.now },
    ghost its_groups: { groups.now ≡ groups_of sections.bytes.now },
}

// The two stay two: each promises a verdict of its own.
impl<'a> Tables<'a> {
    // Each route fits the groups.
    #[tactic(auto, using(crate::proofs::Stages::section_steps), unfolding(crate::specs::Check::member_verdict))]
    fn check_members(&self) -> Result<(), FileRefusal>
        ensures { verdict_of result ≡ member_verdict self.now.sections.bytes.now }
    {
        let found = first_unfit(self.routes, self.groups);
        self.sections
            .span(Kind::Routes)
            .refuse(Refusal::RouteGroup, found)
    }

    // Each star has a route, each triangle its three.
    #[tactic(auto, using(crate::proofs::Stages::section_steps), unfolding(crate::specs::Check::whole_verdict))]
    fn check_wholes(&self) -> Result<(), FileRefusal>
        ensures { verdict_of result ≡ whole_verdict self.now.sections.bytes.now }
    {
        let found = first_incomplete(self.routes, self.groups);
        self.sections
            .span(Kind::Groups)
            .refuse(Refusal::GroupIncomplete, found)
    }
}

// The first route that does not fit the groups: with no groups, each names none.
#[tactic(auto, unfolding(crate::specs::Check::first_unfit))]
fn first_unfit(routes: &[Route], groups: &[Group]) -> Option<usize>
    ensures place { result ≡ first_unfit routes.now groups.now }
    ensures below { IfSome result (λ i. i < length routes.now) }
{
    if groups.is_empty() {
        routes.iter().position(|route| route.group.is_some())
    } else {
        first_misplaced(routes, groups)
    }
}
