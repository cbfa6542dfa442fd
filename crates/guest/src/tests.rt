// A floor on a plan of our own: the calls work as on any other.
use super::Hub;
use book::floor::Floor;
use book::room::BookRoom;
use order::kinds::Relation;
use plans::plan::Plan;
use refusals::Refusal;
use std::test::Fail;

#[test]
fn hub_orders_all_its_handovers(rt: HostRuntime) -> Result<(), Fail> {
    let mut floor = Floor::new(BookRoom::new(rt.alloc())?, Hub::new(4));
    assert_eq!(rt; floor.hand_over(0, 1), Ok(0));
    assert_eq!(rt; floor.hand_over(2, 0), Ok(1));
    assert_eq!(rt;
        floor.hand_over(1, 2),
        Err(Refusal::NoRoute),
        "no route between two others"
    );
    assert_eq!(rt; floor.hand_over(0, 4), Err(Refusal::NoStation));
    assert_eq!(rt; floor.hand_over(0, 3), Ok(2));
    assert_eq!(rt;
        floor.relation(0, 2),
        Ok(Relation::Before),
        "all meet at station 0"
    );
    assert_eq!(rt; floor.relation(2, 1), Ok(Relation::After));
    let mut counts = [7; 2];
    assert!(rt; floor.stamp(2, &mut counts).is_ok());
    assert_eq!(rt; counts, [3, 7], "one dial, and the place past it stays");
    assert_eq!(rt; floor.last(1), Ok(Some(0)));
    assert_eq!(rt; floor.last(3), Ok(Some(2)));
    Ok(())
}
