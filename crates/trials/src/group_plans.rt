// Group plans and the regrouping, on the examples of docs/GROUPING.md.
use grouping::plan::GroupPlan;
use grouping::room::GroupRoom;
use plans::plan::Plan;
use plans::turns::Turns;
use routes::route::{Group, Route};
use std::test::Fail;

fn route(low: u8, high: u8, group: u8) -> Route {
    Route {
        low,
        high,
        group: Some(group),
    }
}

#[test]
fn new_plan_is_empty(rt: HostRuntime) -> Result<(), Fail> {
    let plan = GroupPlan::new(GroupRoom::new(rt.alloc())?);
    assert!(rt; plan.stations() == 0 && plan.dials() == 0);
    assert!(rt; matches!(plan.route(0, 1), Turns::NoRoute));
    assert!(rt; plan.routes().is_empty() && plan.groups().is_empty());
    Ok(())
}

#[test]
fn path_makes_two_stars(rt: HostRuntime) -> Result<(), Fail> {
    let mut plan = GroupPlan::new(GroupRoom::new(rt.alloc())?);
    assert!(rt;
        plan.fill_routes(4, &[route(0, 1, 9), route(1, 2, 9), route(2, 3, 9)])
            .is_ok()
    );
    assert_eq!(rt; plan.groups(), [Group::Star(1), Group::Star(3)].as_slice());
    assert_eq!(rt; plan.routes().get(1), Some(&route(1, 2, 0)));
    assert_eq!(rt; plan.routes().get(2), Some(&route(2, 3, 1)));
    assert!(rt; plan.stations() == 4 && plan.dials() == 2);
    assert!(rt; matches!(plan.route(3, 2), Turns::One(1)));
    assert!(rt; matches!(plan.route(0, 2), Turns::NoRoute));
    Ok(())
}

#[test]
fn square_makes_three_stars(rt: HostRuntime) -> Result<(), Fail> {
    let mut plan = GroupPlan::new(GroupRoom::new(rt.alloc())?);
    assert!(rt;
        plan.fill_routes(
            4,
            &[
                route(0, 1, 0),
                route(0, 3, 0),
                route(1, 2, 0),
                route(2, 3, 0),
            ],
        )
        .is_ok()
    );
    assert_eq!(rt;
        plan.groups(),
        [Group::Star(0), Group::Star(1), Group::Star(3)].as_slice()
    );
    assert_eq!(rt; plan.routes().get(1), Some(&route(0, 3, 0)));
    assert_eq!(rt; plan.routes().get(2), Some(&route(1, 2, 1)));
    assert_eq!(rt; plan.routes().get(3), Some(&route(2, 3, 2)));
    Ok(())
}

#[test]
fn bridge_between_triangles_is_a_star(rt: HostRuntime) -> Result<(), Fail> {
    let mut plan = GroupPlan::new(GroupRoom::new(rt.alloc())?);
    assert!(rt;
        plan.fill_routes(
            6,
            &[
                route(0, 1, 0),
                route(0, 2, 0),
                route(1, 2, 0),
                route(2, 3, 0),
                route(3, 4, 0),
                route(3, 5, 0),
                route(4, 5, 0),
            ],
        )
        .is_ok()
    );
    let groups = [
        Group::Triangle(0, 1, 2),
        Group::Triangle(3, 4, 5),
        Group::Star(2),
    ];
    assert_eq!(rt; plan.groups(), groups.as_slice());
    assert_eq!(rt; plan.routes().get(3), Some(&route(2, 3, 2)));
    assert_eq!(rt; plan.routes().get(6), Some(&route(4, 5, 1)));
    Ok(())
}

#[test]
fn given_groups_stay_until_regrouped(rt: HostRuntime) -> Result<(), Fail> {
    let mut plan = GroupPlan::new(GroupRoom::new(rt.alloc())?);
    let routes = [route(0, 1, 1), route(1, 2, 0)];
    assert!(rt;
        plan.fill(3, &routes, &[Group::Star(2), Group::Star(0)])
            .is_ok()
    );
    assert!(rt;
        matches!(plan.route(0, 1), Turns::One(1)) && matches!(plan.route(2, 1), Turns::One(0))
    );
    plan.regroup();
    assert_eq!(rt; plan.groups(), [Group::Star(1)].as_slice());
    assert!(rt; matches!(plan.route(0, 1), Turns::One(0)) && plan.dials() == 1);
    Ok(())
}

#[test]
fn refused_filling_leaves_the_plan(rt: HostRuntime) -> Result<(), Fail> {
    let mut plan = GroupPlan::new(GroupRoom::new(rt.alloc())?);
    assert!(rt; plan.fill_routes(2, &[route(0, 1, 0)]).is_ok());
    assert!(rt; plan.fill_routes(33, &[]).is_err(), "33 stations");
    assert!(rt;
        plan.fill_routes(3, &[route(1, 2, 0), route(0, 1, 0)])
            .is_err(),
        "not ascending"
    );
    assert!(rt;
        plan.fill(3, &[route(0, 1, 0)], &[Group::Star(2)]).is_err(),
        "does not fit"
    );
    assert!(rt;
        plan.fill(3, &[route(0, 1, 0)], &[Group::Star(0), Group::Star(1)])
            .is_err(),
        "a star without a route"
    );
    assert!(rt; plan.stations() == 2 && plan.dials() == 1);
    assert_eq!(rt; plan.routes(), [route(0, 1, 0)].as_slice());
    assert_eq!(rt; plan.groups(), [Group::Star(1)].as_slice());
    Ok(())
}
