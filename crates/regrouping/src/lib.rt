//! Theory alone: the three rules by which routes are grouped, and their laws. The group plan's
//! regrouping call promises what the rules leave, the functions below what they take and what a pair
//! has; and the table of worked examples has three tables and their groups.
#![tactic(auto)]

ghost use Rattle.std.specs.Prelude.{◌≡◌, ℕ, ◌≤◌, true, List, length};
ghost use Rattle.routes.specs.declared.route.Route.{Route};
ghost use Rattle.routes.specs.Order.{ends, ordered};
ghost use Rattle.regrouping.specs.Steps.{regrouped};
ghost use Rattle.regrouping.specs.Pairs.{PairLaw};
ghost use Rattle.regrouping.specs.Laws.{Regroups};
ghost use Rattle.regrouping.specs.Taking.{RulesTake};

// Which station, which triangle and which route the rules take, whatever remains.
pub fn rules_stand()
    ensures { (n : ℕ) (t : List Route) → RulesTake n t }
{}

// Which group a pair of stations has: that of the route that joins them, and none where no route does.
pub fn pairs_stand()
    ensures { (n : ℕ) (t : List Route) → ordered n (ends t) ≡ true → (a b : ℕ) → PairLaw t a b }
{}

// The same routes in the same order, decomposed, into at most 32 groups, of every ordered table.
pub fn regroups_stand()
    ensures { (n : ℕ) (t : List Route) → n ≤ 32 → length t ≤ 496 → ordered n (ends t) ≡ true → Regroups t (regrouped n t) }
{}
