// One outcome for each call.
ghost use Rattle.book.specs.Outcomes.{OneOutcome};

use plans::plan::Plan;

// Each call's own contract leaves one reply, and one floor by what it shows: no other book meets it.
pub fn outcomes_stand<P: Plan>()
    ensures { OneOutcome P.Plan.meaning }
{}
