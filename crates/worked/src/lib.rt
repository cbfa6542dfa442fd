//! Theory alone: worked examples, each proved over the definitions that the calls' contracts use.
#![tactic(auto)]

ghost use Rattle.worked.specs.Worked.{Worked};

// Stamps, regroupings, joins and the sample day, worked out.
pub fn worked_examples()
    ensures { Worked }
{}
