//! A plan that this repository's own crates know nothing of, and a floor that runs on it.
#![tactic(auto)]

ghost use Rattle.std.specs.Prelude.{◌≡◌, ◌≤◌, min, ◌||◌};
ghost use Rattle.guest.specs.Hub.{hub_meaning, spoke};
ghost use Rattle.std.proofs.Common.{arith};
ghost use Rattle.std.proofs.lemmas.Bool.Decides.{nat_tests};

use plans::plan::Plan;
use plans::turns::Turns;

// A hub: station 0 hands over to every other, and no two others to each other.
#[derive(Clone, Copy, PartialEq, Eq, Debug)]
pub struct Hub {
    stations: u8,
    ghost few: { stations ≤ 32 },
}

impl Hub {
    // A hub of so many stations, at most 32.
    pub fn new(stations: u8) -> Self
        ensures stations { result.stations ≡ min stations 32 }
        ensures meaning { ⟦<Hub as Plan>⟧.meaning result ≡ hub_meaning (min stations 32) }
    {
        Hub {
            stations: stations.min(32),
        }
    }

    // Whether there is a spoke from a, which is 0, to b.
    fn is_spoke(&self, a: u8, b: u8) -> bool
        ensures { result ≡ spoke self.now.stations a b }
    {
        a == 0 && b > 0 && b < self.stations
    }
}

impl Plan for Hub {
    ghost meaning = { λ h. hub_meaning h.stations };

    ghost lawful = { λ h. let few = h.few in Prim.grind (arith, nat_tests) };

    fn stations(&self) -> u8 {
        self.stations
    }

    fn dials(&self) -> u8 {
        1
    }

    fn route(&self, a: u8, b: u8) -> Turns {
        if self.is_spoke(a, b) || self.is_spoke(b, a) {
            Turns::One(0)
        } else {
            Turns::NoRoute
        }
    }
}

#[cfg(test)]
mod tests;
