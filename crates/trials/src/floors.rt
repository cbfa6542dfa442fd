// Floors: what the scene does not show of offers, settlements and withdrawals, of another floor's offers, and of a full book.
use book::floor::Floor;
use book::room::BookRoom;
use order::kinds::Relation;
use plans::plan::Plan;
use plans::station::StationPlan;
use refusals::Refusal;
use std::test::Fail;

// Withdraws the local offer after a foreign one has spent its pair: the foreign one's number, and the local one's reply.
fn foreign_settles(
    floor: &mut Floor<StationPlan>,
    other: &mut Floor<StationPlan>,
) -> Result<(u16, Result<(), Refusal>), Refusal> {
    let local = floor.offer(0, 1)?;
    let foreign = match other.offer(0, 1) {
        Ok(offer) => offer,
        Err(refusal) => {
            let _ = floor.withdraw(local);
            return Err(refusal);
        }
    };
    let settled = floor.settle(foreign);
    let spent = floor.withdraw(local);
    let number = settled.map_err(|(refusal, back)| {
        let _ = other.withdraw(back);
        refusal
    })?;
    Ok((number, spent))
}

#[test]
fn matching_offer_of_another_floor_settles_here(rt: HostRuntime) -> Result<(), Fail> {
    let mut floor = Floor::new(BookRoom::new(rt.alloc())?, StationPlan::new(2));
    let mut other = Floor::new(BookRoom::new(rt.alloc())?, StationPlan::new(2));
    match foreign_settles(&mut floor, &mut other) {
        Ok((number, spent)) => assert!(rt;
            number == 0 && spent.map_err(Refusal::number) == Err(14),
            "the local offer then gets 14"
        ),
        Err(_) => return Err(Fail::new("a matching offer was refused")),
    }
    assert!(rt; matches!(floor.last(1), Ok(Some(0))));
    assert!(rt;
        matches!(other.last(1), Ok(None)),
        "nothing was settled there"
    );
    assert!(rt;
        withdrawn(&mut other, 0, 1) == Err(12),
        "its pair still waits there"
    );
    Ok(())
}

// Offers a handover and withdraws it; a refusal by its number.
fn withdrawn<P: Plan>(floor: &mut Floor<P>, giver: u8, taker: u8) -> Result<(), u8> {
    floor
        .offer(giver, taker)
        .and_then(|offer| floor.withdraw(offer))
        .map_err(Refusal::number)
}

// What an offer of stations 4 and 5 of a large floor gets on a small one.
fn carried_over(large: &mut Floor<StationPlan>, small: &mut Floor<StationPlan>) -> Result<(), u8> {
    let offer = large.offer(4, 5).map_err(Refusal::number)?;
    small.withdraw(offer).map_err(Refusal::number)
}

#[test]
fn numbers_of_no_station_are_not_pending(rt: HostRuntime) -> Result<(), Fail> {
    let mut large = Floor::new(BookRoom::new(rt.alloc())?, StationPlan::new(6));
    let mut small = Floor::new(BookRoom::new(rt.alloc())?, StationPlan::new(2));
    assert!(rt; carried_over(&mut large, &mut small) == Err(14));
    assert!(rt;
        withdrawn(&mut large, 4, 5) == Err(12),
        "the withdrawal elsewhere spent the offer, not the pair"
    );
    Ok(())
}

#[test]
fn floor_without_dials_refuses_every_stamp(rt: HostRuntime) -> Result<(), Fail> {
    let mut floor = Floor::new(BookRoom::new(rt.alloc())?, StationPlan::new(0));
    let mut none: [u16; 0] = [];
    assert!(rt; matches!(floor.stamp(0, &mut none), Err(Refusal::NotSettled)));
    assert!(rt; withdrawn(&mut floor, 0, 1) == Err(9));
    assert!(rt; matches!(floor.relation(0, 0), Err(Refusal::NotSettled)));
    Ok(())
}

#[test]
fn refusals_come_in_their_order(rt: HostRuntime) -> Result<(), Fail> {
    let mut floor = Floor::new(BookRoom::new(rt.alloc())?, StationPlan::new(2));
    assert!(rt; withdrawn(&mut floor, 2, 2) == Err(9), "9 before 10");
    assert!(rt; withdrawn(&mut floor, 1, 1) == Err(10), "10 before 11");
    assert!(rt; withdrawn(&mut floor, 0, 1) == Ok(()));
    assert!(rt;
        withdrawn(&mut floor, 1, 0) == Ok(()),
        "withdrawn, so both are free again"
    );
    assert!(rt; matches!(floor.relation(0, 0), Err(Refusal::NotSettled)));
    Ok(())
}

#[test]
fn station_plan_stamps_both_stations(rt: HostRuntime) -> Result<(), Fail> {
    let mut floor = Floor::new(BookRoom::new(rt.alloc())?, StationPlan::new(4));
    assert!(rt; floor.hand_over(0, 1).is_ok());
    assert!(rt; floor.hand_over(1, 2).is_ok());
    assert!(rt; floor.hand_over(3, 0).is_ok());
    let mut counts = [0; 4];
    assert!(rt; floor.stamp(0, &mut counts).is_ok() && counts == [1, 1, 0, 0]);
    assert!(rt; floor.stamp(1, &mut counts).is_ok() && counts == [1, 2, 1, 0]);
    assert!(rt; floor.stamp(2, &mut counts).is_ok() && counts == [2, 1, 0, 1]);
    assert!(rt; matches!(floor.relation(1, 2), Ok(Relation::Beside)));
    assert!(rt; matches!(floor.relation(0, 2), Ok(Relation::Before)));
    Ok(())
}
