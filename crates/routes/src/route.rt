// A route between two stations, and the groups of routes.
ghost use Rattle.std.specs.Prelude.{◌≡◌};
ghost use Rattle.routes.specs.Order.{pair, before, inside};
ghost use Rattle.routes.specs.Groups.{is_in, side, fits, placed};

// A route (an edge of the communication topology) between two stations, its lower end first, and the number of its group, where it has one.
#[derive(Clone, Copy, PartialEq, Eq, Debug, Default)]
pub struct Route {
    pub low: u8,
    pub high: u8,
    pub group: Option<u8>,
}

// A group of routes: a star, by its centre, or a triangle, by its three stations.
#[derive(Clone, Copy, PartialEq, Eq, Debug)]
pub enum Group {
    Star(u8),
    Triangle(u8, u8, u8),
}

// What lies in a place of a table of groups that is not used.
impl Default for Group {
    ghost use Rattle.routes.specs.declared.route.Group.TheVariants.{Star};

    ghost is_default = { λ g. g ≡ Star 0 };

    fn default() -> Group {
        Group::Star(0)
    }
}

impl Route {
    // The stations at the route's ends, the lower first.
    pub fn pair(self) -> (u8, u8)
        ensures { result ≡ pair self }
    {
        (self.low, self.high)
    }

    // Whether the route comes ahead of the other: by the lower end, then by the higher.
    pub fn before(self, other: Route) -> bool
        ensures { result ≡ before (pair self) (pair other) }
    {
        self.pair() < other.pair()
    }

    // Whether the route has the shape of the group: it meets the star's centre, or is a side of the triangle.
    pub fn fits(self, group: Group) -> bool
        ensures { result ≡ fits group self }
    {
        match group {
            Group::Star(centre) => self.low == centre || self.high == centre,
            Group::Triangle(a, b, c) => self.is_side(a, b)
                || self.is_side(a, c)
                || self.is_side(b, c),
        }
    }

    // Whether the route goes from a to b.
    pub(crate) fn is_side(self, a: u8, b: u8) -> bool
        ensures { result ≡ side a b self }
    {
        self.pair() == (a, b)
    }

    // Whether the route is between two stations below the number of stations, the lower first.
    pub(crate) fn is_inside(self, stations: u8) -> bool
        ensures { result ≡ inside stations (pair self) }
    {
        self.low < self.high && self.high < stations
    }

    // Whether the route is in the group of this number.
    pub fn is_in(self, number: usize) -> bool
        ensures { result ≡ is_in number self }
    {
        self.group.is_some_and(|group| usize::from(group) == number)
    }

    // Whether the route's group is there, and has the route's shape.
    pub(crate) fn is_placed(self, groups: &[Group]) -> bool
        ensures { result ≡ placed groups.now self }
    {
        self.group
            .and_then(|number| groups.get(usize::from(number)))
            .is_some_and(|group| self.fits(*group))
    }
}
