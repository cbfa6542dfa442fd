// The tables of a day file: its routes and groups, out of their records.
ghost use Rattle.std.specs.Prelude.{◌≡◌, ℕ, ◌+◌, ◌*◌, ◌<◌, ◌≤◌, [], length, OnOk, Some, None, if◌then◌else◌};
ghost use Rattle.dayfile.specs.Check.{record_verdict};
ghost use Rattle.dayfile.specs.Records.{part_at, part_of};
ghost use Rattle.dayfile.specs.Tables.{group_at, group_place, groups_of, is_group_record, route_at, route_place, routes_of, Stands};
ghost use Rattle.std.specs.Slice.Iter.{chunks_exact_rest, chunks_exact_size};
ghost use Rattle.dayfile.specs.Verdict.{verdict_of};

use super::layout::{MOST_GROUPS, MOST_ROUTES, Sections};
use super::records::Kind;
use super::refusal::FileRefusal;
use super::section::Span;
use arrayvec::ArrayVec;
use refusals::Refusal;
use routes::route::{Group, Route};
use std::slice::ChunksExact;

// The byte of a route that names no group.
const NO_GROUP: u8 = 255;

impl<'a> Sections<'a> {
    // The bytes of a record, by its place: Rattle's `nth`, as in `chunks_exact(..).nth(index)`, walks over
    // all the records ahead of it.
    pub(crate) fn record(&self, section: Span, index: usize) -> &'a [u8]
        requires inside { section.start + section.count * section.size ≤ length self.now.bytes.now }
        requires index { index < section.count }
        ensures part { part_of result ≡ part_at self.now.bytes (section.start + section.size * index) section.size }
    {
        let start = section.place(index);
        &self.bytes[start..start + section.size]
    }

    // The records of a section, one after the other.
    fn records(&self, section: Span) -> ChunksExact<'a, u8>
        requires inside { section.start + section.count * section.size ≤ length self.now.bytes.now }
        requires size { 0 < section.size }
        ensures rest { Stands (chunks_exact_rest result) self.now.bytes.now section.start }
        ensures len { length (chunks_exact_rest result) ≡ section.count * section.size }
        ensures size { chunks_exact_size result ≡ section.size }
    {
        self.bytes[section.start..section.end()].chunks_exact(section.size)
    }

    // Puts the routes of the file into a table that has none yet: one that is handed out would be copied.
    #[tactic(auto, using(crate::proofs::Stages::table_steps), unfolding(crate::specs::Tables::routes_of))]
    pub(crate) fn put_routes(&self, routes: &mut ArrayVec<Route, MOST_ROUTES>)
        requires { routes.old.items ≡ [] }
        ensures { routes.new.items ≡ routes_of self.now.bytes.now }
    {
        for record in self.records(self.span(Kind::Routes)) {
            routes.push(self.route(record));
        }
    }

    // Puts the groups of the file into a table that has none yet, up to the first record that is neither a star's nor a triangle's, which is refused.
    #[tactic(auto, using(crate::proofs::Stages::table_steps), unfolding(crate::specs::Tables::groups_of))]
    pub(crate) fn put_groups(
        &self,
        groups: &mut ArrayVec<Group, MOST_GROUPS>,
    ) -> Result<(), FileRefusal>
        requires { groups.old.items ≡ [] }
        ensures verdict { verdict_of result ≡ record_verdict self.now.bytes.now }
        ensures groups { OnOk result (groups.new.items ≡ groups_of self.now.bytes.now) }
    {
        let section = self.span(Kind::Groups);
        for record in self.records(section) {
            let group = self
                .group(record)
                .ok_or(section.refusal(Refusal::GroupRecord, groups.len()))?;
            groups.push(group);
        }
        Ok(())
    }

    // The route of a record: its lower end, its higher end, its group.
    #[tactic(auto, unfolding(crate::specs::Tables::route_at))]
    fn route(&self, bytes: &[u8]) -> Route
        requires { length bytes.now ≡ 3 }
        ensures { (i : ℕ) → Stands bytes.now self.now.bytes.now (route_place self.now.bytes.now i) → result ≡ route_at self.now.bytes.now i }
    {
        Route {
            low: bytes[0],
            high: bytes[1],
            group: (bytes[2] != NO_GROUP).then_some(bytes[2]),
        }
    }

    // The group of a record, if it is a star's or a triangle's.
    #[tactic(auto, unfolding(crate::specs::Tables::is_group_record, crate::specs::Tables::group_at, crate::specs::Tables::group_byte))]
    fn group(&self, bytes: &[u8]) -> Option<Group>
        requires { length bytes.now ≡ 4 }
        ensures { (g : ℕ) → Stands bytes.now self.now.bytes.now (group_place self.now.bytes.now g) → result ≡ (if is_group_record self.now.bytes.now g then Some (group_at self.now.bytes.now g) else None) }
    {
        let stations = self.layout.stations;
        match *bytes {
            [0, centre, 0, 0] if centre < stations => Some(Group::Star(centre)),
            [1, a, b, c] if a < b && b < c && c < stations => Some(Group::Triangle(a, b, c)),
            _ => None,
        }
    }
}
