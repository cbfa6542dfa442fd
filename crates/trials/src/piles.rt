// A pile of all kinds: a closing over a join of a station plan and a closed group plan.
use grouping::plan::GroupPlan;
use grouping::room::GroupRoom;
use plans::closing::Closing;
use plans::join::Join;
use plans::plan::Plan;
use plans::station::StationPlan;
use plans::turns::Turns;
use routes::route::Route;
use std::test::Fail;

#[test]
fn pile_of_all_kinds(rt: HostRuntime) -> Result<(), Fail> {
    // below: two stations, dials 0 and 1; above: a path 0-1-2-3 in two stars, its end 3 closed
    let mut path = GroupPlan::new(GroupRoom::new(rt.alloc())?);
    let routes = [(0, 1), (1, 2), (2, 3)].map(|(low, high)| Route {
        low,
        high,
        group: Some(0),
    });
    assert!(rt; path.fill_routes(4, &routes).is_ok());
    let mut end = [false; 32];
    end[3] = true;
    let above = Closing::new(path, end);
    assert!(rt; Join::check(&StationPlan::new(2), &above, 0, 2).is_ok());
    let joined = Join::new(StationPlan::new(2), above, 0, 2);
    let mut door = [false; 32];
    door[1] = true;
    let shop = Closing::new(joined, door);
    assert!(rt;
        shop.stations() == 6 && shop.dials() == 5,
        "2 + 4 stations; 2 + 2 dials and the lift"
    );
    assert!(rt;
        matches!(shop.route(0, 1), Turns::NoRoute),
        "station 1 is closed"
    );
    assert!(rt;
        matches!(shop.route(2, 3), Turns::One(2)),
        "the path's first star, raised"
    );
    assert!(rt;
        matches!(shop.route(4, 5), Turns::NoRoute),
        "the path's end was closed before joining"
    );
    assert!(rt; matches!(shop.route(4, 0), Turns::One(4)), "the lift");
    assert!(rt; matches!(shop.route(3, 0), Turns::NoRoute));
    Ok(())
}
