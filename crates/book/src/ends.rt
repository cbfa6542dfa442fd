// The two ends of a handover.
ghost use Rattle.std.specs.Prelude.{◌≡◌};
ghost use Rattle.plans.specs.Meaning.{has};
ghost use Rattle.book.specs.Ends.{pair};

// The station that gives, and the station that takes.
#[derive(Clone, Copy, PartialEq, Eq, Debug)]
pub struct Ends {
    pub(crate) giver: u8,
    pub(crate) taker: u8,
}

impl Ends {
    // Whether the station is one of the two.
    pub(crate) fn have(self, station: u8) -> bool
        ensures { result ≡ has station (pair self) }
    {
        self.giver == station || self.taker == station
    }
}
