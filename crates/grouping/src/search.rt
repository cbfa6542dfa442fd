// What the three rules ask of the routes that remain, those without a group yet.
ghost use Rattle.std.specs.Prelude.{◌≡◌, ◌+◌, ◌<◌, ◌==◌, Some, None, true, if◌then◌else◌, vec_items};
ghost use Rattle.regrouping.specs.Table.{best, degree, leaf, loose, remains, triangle};
ghost use Rattle.regrouping.specs.Steps.{mate, some_open};

use crate::draft::Draft;
use routes::route::Route;

impl Draft {
    // How many routes of s remain.
    pub(crate) fn degree(&self, s: u8) -> u16
        requires { s < 32 }
        ensures { result ≡ degree (vec_items self.now.routes) s }
    {
        self.degrees.of(s)
    }

    // The leaf: the lowest station with exactly one remaining route.
    pub(crate) fn lowest_leaf(&self) -> Option<u8>
        ensures { result ≡ leaf (vec_items self.now.routes) self.now.stations }
    {
        (0..self.stations).find(|s| self.degree(*s) == 1)
    }

    // The other end of the first remaining route of s, where one remains.
    pub(crate) fn other_end(&self, s: u8) -> Option<u8>
        ensures { result ≡ (if degree (vec_items self.now.routes) s == 0 then None else Some (mate (vec_items self.now.routes) s)) }
    {
        self.routes
            .iter()
            .find(|r| r.group.is_none() && (r.low == s || r.high == s))
            .map(|r| if r.low == s { r.high } else { r.low })
    }

    // Whether c makes a loose triangle with a and b, whose route remains.
    pub(crate) fn is_loose(&self, a: u8, b: u8, c: u8) -> bool
        requires stations { (a < 32) × (b < 32) × (c < 32) }
        requires joined { remains (vec_items self.now.routes) a b ≡ true }
        ensures { result ≡ loose (vec_items self.now.routes) a b c }
    {
        let x = self.degree(a) == 2;
        let y = self.degree(b) == 2;
        let z = self.degree(c) == 2;
        ((x && y) || (x && z) || (y && z)) && self.remains(a, c) && self.remains(b, c)
    }

    // The first loose triangle, by lowest, middle and highest station.
    pub(crate) fn first_triangle(&self) -> Option<(u8, u8, u8)>
        ensures { result ≡ triangle (vec_items self.now.routes) self.now.stations }
    {
        // Two corners of a loose triangle have exactly two remaining routes.
        if !self.degrees.counts.contains(&2) {
            return None;
        }
        let n = self.stations;
        let mut found = None;
        // Three nested loops left by a label: a form that the project asks for.
        'search: for a in 0..n {
            for b in a + 1..n {
                // So a or b is such a corner.
                if self.degree(a) != 2 && self.degree(b) != 2 {
                    continue;
                }
                if !self.remains(a, b) {
                    continue;
                }
                for c in b + 1..n {
                    if self.is_loose(a, b, c) {
                        found = Some((a, b, c));
                        break 'search;
                    }
                }
            }
        }
        found
    }

    // The remaining routes at both ends of a route.
    fn weight_of(&self, r: Route) -> u16
        requires { (r.low < 32) × (r.high < 32) }
        ensures { result ≡ degree (vec_items self.now.routes) r.low + degree (vec_items self.now.routes) r.high }
    {
        self.degree(r.low) + self.degree(r.high)
    }

    // The place of the heaviest route, the first in ascending order.
    pub(crate) fn best_route(&self) -> Option<usize>
        ensures { result ≡ best (vec_items self.now.routes) }
    {
        let mut top = 0;
        let mut found = None;
        // A loop over the routes with their places: a form that the project asks for.
        for (i, r) in self.routes.iter().enumerate() {
            if r.group.is_some() {
                continue;
            }
            let w = self.weight_of(*r);
            if w > top {
                top = w;
                found = Some(i);
            }
        }
        found
    }

    // Whether a route remains.
    pub(crate) fn any_remains(&self) -> bool
        ensures { result ≡ some_open (vec_items self.now.routes) }
    {
        self.routes.iter().any(|r| r.group.is_none())
    }
}
