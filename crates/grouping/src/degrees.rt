// How many remaining routes each station has, kept beside the routes.
ghost use Rattle.std.specs.Prelude.{◌≡◌, ℕ, ◌+◌, ◌-◌, ◌<◌, ◌≤◌, length, if◌then◌else◌, slice_index};
ghost use Rattle.std.specs.List.{AllByRecursion};
ghost use Rattle.regrouping.specs.Table.{Counted, touches};
ghost use Rattle.regrouping.specs.Steps.{Inside};

use routes::route::Route;

// A count for each of 32 stations, in fixed memory: only room values ask for any.
#[derive(Clone, Copy)]
pub struct Degrees {
    pub(crate) counts: [u16; 32],
}

impl Degrees {
    // Counts the remaining routes.
    pub(crate) fn count(routes: &[Route]) -> Degrees
        requires inside { AllByRecursion (Inside 32) routes.now }
        requires short { length routes.now ≤ 496 }
        ensures { Counted result.counts routes.now }
    {
        let mut degrees = Degrees { counts: [0; 32] };
        for r in routes {
            if r.group.is_none() {
                degrees.one_more(*r);
            }
        }
        degrees
    }

    // How many routes of s remain.
    pub(crate) fn of(&self, s: u8) -> u16
        requires { s < 32 }
        ensures { result ≡ slice_index self.now.counts s }
    {
        self.counts[usize::from(s)]
    }

    // One remaining route more at both ends of r.
    fn one_more(&mut self, r: Route)
        requires inside { Inside 32 r }
        requires few { (slice_index self.old.counts r.low ≤ 496) × (slice_index self.old.counts r.high ≤ 496) }
        ensures { (s : ℕ) → slice_index self.new.counts s ≡ slice_index self.old.counts s + (if touches s r then 1 else 0) }
    {
        self.counts[r.low as usize] += 1;
        self.counts[r.high as usize] += 1;
    }

    // One remaining route less at both ends of r.
    pub(crate) fn one_less(&mut self, r: Route)
        requires inside { Inside 32 r }
        requires some { (0 < slice_index self.old.counts r.low) × (0 < slice_index self.old.counts r.high) }
        ensures { (s : ℕ) → slice_index self.old.counts s ≡ slice_index self.new.counts s + (if touches s r then 1 else 0) }
    {
        // Not one function with one_more: that asks for room above the counts, this for something to take.
        self.counts[r.low as usize] -= 1;
        self.counts[r.high as usize] -= 1;
    }
}
