// Station plans, closings and joins, on the examples of docs/PLANS.md and at their limits.
use plans::closing::Closing;
use plans::join::Join;
use plans::plan::Plan;
use plans::station::StationPlan;
use plans::turns::Turns;
use refusals::Refusal;

#[test]
fn station_plan_turns_lower_then_higher(rt: HostRuntime) {
    let plan = StationPlan::new(32);
    assert!(rt; plan.stations() == 32 && plan.dials() == 32);
    assert!(rt;
        matches!(plan.route(31, 0), Turns::Two(0, 31)),
        "lower first, whoever gives"
    );
    assert!(rt; matches!(plan.route(0, 31), Turns::Two(0, 31)));
    assert!(rt;
        matches!(plan.route(7, 7), Turns::NoRoute),
        "no route to itself"
    );
    assert!(rt;
        matches!(plan.route(31, 32), Turns::NoRoute),
        "32 is no station"
    );
    assert!(rt; matches!(plan.route(255, 255), Turns::NoRoute));
}

#[test]
fn station_plan_of_another_number_is_empty(rt: HostRuntime) {
    for n in [0u8, 33, 255] {
        let plan = StationPlan::new(n);
        assert!(rt; plan.stations() == 0 && plan.dials() == 0);
        assert!(rt; matches!(plan.route(0, 1), Turns::NoRoute));
    }
    assert!(rt; StationPlan::new(1).stations() == 1);
}

#[test]
fn closing_takes_routes_and_keeps_numbers(rt: HostRuntime) {
    let mut closed = [false; 32];
    closed[1] = true;
    closed[30] = true;
    let plan = Closing::new(StationPlan::new(4), closed);
    assert!(rt;
        plan.stations() == 4 && plan.dials() == 4,
        "30 is no station: no effect"
    );
    assert!(rt; matches!(plan.route(0, 1), Turns::NoRoute));
    assert!(rt; matches!(plan.route(1, 0), Turns::NoRoute));
    assert!(rt; matches!(plan.route(2, 3), Turns::Two(2, 3)));
    let none = Closing::new(StationPlan::new(4), [true; 32]);
    assert!(rt; none.stations() == 4 && none.dials() == 4, "all closed");
    assert!(rt; matches!(none.route(2, 3), Turns::NoRoute));
}

#[test]
fn join_has_one_lift(rt: HostRuntime) {
    let plan = Join::new(StationPlan::new(3), StationPlan::new(4), 1, 0);
    assert!(rt; plan.stations() == 7 && plan.dials() == 8);
    assert!(rt; matches!(plan.route(1, 3), Turns::One(7)), "the lift");
    assert!(rt; matches!(plan.route(3, 1), Turns::One(7)));
    assert!(rt; matches!(plan.route(0, 2), Turns::Two(0, 2)), "below");
    assert!(rt;
        matches!(plan.route(3, 6), Turns::Two(3, 6)),
        "above, raised"
    );
    assert!(rt;
        matches!(plan.route(2, 3), Turns::NoRoute),
        "no other route across"
    );
    assert!(rt;
        matches!(plan.route(6, 7), Turns::NoRoute),
        "7 is no station"
    );
}

// What the check of a join of two station plans replies, a refusal by its number.
fn fit(n: u8, m: u8, p: u8, q: u8) -> Result<(), u8> {
    Join::check(&StationPlan::new(n), &StationPlan::new(m), p, q).map_err(Refusal::number)
}

#[test]
fn join_fits_up_to_the_limits(rt: HostRuntime) {
    assert!(rt; fit(16, 16, 0, 0) == Err(17), "32 stations, but 33 dials");
    assert!(rt; fit(16, 15, 15, 14) == Ok(()), "31 stations, 32 dials");
    assert!(rt;
        fit(16, 15, 16, 0) == Err(17),
        "the first end is no station"
    );
    assert!(rt;
        fit(16, 15, 0, 15) == Err(17),
        "the second end is no station"
    );
    assert!(rt; fit(0, 4, 0, 0) == Err(17), "an empty half");
    assert!(rt; fit(4, 0, 0, 0) == Err(17));
    assert!(rt; fit(1, 1, 0, 0) == Ok(()));
    let unfit = Join::new(StationPlan::new(16), StationPlan::new(16), 0, 0);
    assert!(rt;
        unfit.stations() == 0 && unfit.dials() == 0,
        "it means the empty plan"
    );
    assert!(rt; matches!(unfit.route(0, 1), Turns::NoRoute));
}
