// A scene on the floor of a shop: a pile of plans, offers that wait, a withdrawal, and a refusal of each kind.
#![tactic(auto)]

use anyhow::anyhow;
use book::floor::Floor;
use book::offer::Offer;
use book::room::BookRoom;
use grouping::plan::GroupPlan;
use grouping::room::GroupRoom;
use plans::closing::Closing;
use plans::join::Join;
use plans::plan::Plan;
use plans::station::StationPlan;
use refusals::Refusal;
use routes::route::Route;

// Prints the stamp of a handover, one count for each dial.
fn show_stamp<P: Plan>(rt: &HostRuntime, floor: &Floor<P>, handover: u16) -> anyhow::Result<()> {
    let mut counts = [0; 6];
    match floor.stamp(handover, &mut counts) {
        Ok(()) => println!(rt; "stamp of {handover}: {counts:?}")?,
        Err(refusal) => println!(rt; "stamp of {handover}: refused {}", refusal.number())?,
    }
    Ok(())
}

// Hands over, and prints the number and the stamp.
fn hand<P: Plan>(
    rt: &HostRuntime,
    floor: &mut Floor<P>,
    giver: u8,
    taker: u8,
) -> anyhow::Result<()> {
    match floor.hand_over(giver, taker) {
        Ok(handover) => {
            println!(rt; "{giver} to {taker}: handover {handover}")?;
            show_stamp(rt, floor, handover)
        }
        Err(refusal) => {
            println!(rt; "{giver} to {taker}: refused {}", refusal.number())?;
            Ok(())
        }
    }
}

// Settles an offer; one that is refused is withdrawn.
fn spend<P: Plan>(floor: &mut Floor<P>, offer: Offer) -> Result<u16, Refusal> {
    floor.settle(offer).map_err(|(refusal, back)| {
        let _ = floor.withdraw(back);
        refusal
    })
}

// Prints how one handover stands to another.
fn ask<P: Plan>(rt: &HostRuntime, floor: &Floor<P>, a: u16, b: u16) -> anyhow::Result<()> {
    match floor.relation(a, b) {
        Ok(relation) => println!(rt; "{a} and {b}: {relation}")?,
        Err(refusal) => println!(rt; "{a} and {b}: refused {}", refusal.number())?,
    }
    Ok(())
}

// Prints the latest handover of a station.
fn latest<P: Plan>(rt: &HostRuntime, floor: &Floor<P>, station: u8) -> anyhow::Result<()> {
    match floor.last(station) {
        Ok(Some(handover)) => println!(rt; "last of {station}: {handover}")?,
        Ok(None) => println!(rt; "last of {station}: none yet")?,
        Err(refusal) => println!(rt; "last of {station}: refused {}", refusal.number())?,
    }
    Ok(())
}

// Two offers wait at once; one station of them is asked again meanwhile; one is settled, one withdrawn.
fn waiting<P: Plan>(rt: &HostRuntime, floor: &mut Floor<P>) -> anyhow::Result<()> {
    println!(rt; "two offers wait: 0 to 1, 4 to 5")?;
    let Ok(below) = floor.offer(0, 1) else {
        return Err(anyhow!("0 to 1 was refused"));
    };
    let above = match floor.offer(4, 5) {
        Ok(offer) => offer,
        Err(_) => {
            let _ = floor.withdraw(below);
            return Err(anyhow!("4 to 5 was refused"));
        }
    };
    // an offer that waits must be spent before anything can go wrong
    let busy = hand(rt, floor, 1, 3);
    let first = spend(floor, below);
    let back = floor.withdraw(above);
    busy?;
    if let Ok(handover) = first {
        println!(rt; "0 to 1: handover {handover}")?;
    }
    if back.is_ok() {
        println!(rt; "4 to 5: withdrawn")?;
    }
    show_stamp(rt, floor, 0)
}

// An offer of another floor is judged here by its giver and taker alone.
fn foreign<P: Plan, Q: Plan>(
    rt: &HostRuntime,
    floor: &mut Floor<P>,
    other: &mut Floor<Q>,
) -> anyhow::Result<()> {
    let Ok(offer) = other.offer(0, 1) else {
        return Err(anyhow!("the other floor refused"));
    };
    match floor.settle(offer) {
        Ok(handover) => println!(rt; "another floor's 0 to 1: handover {handover}")?,
        Err((refusal, back)) => {
            let home = spend(other, back);
            println!(rt;
                "another floor's 0 to 1: refused {}, and handed back",
                refusal.number()
            )?;
            if let Ok(handover) = home {
                println!(rt; "settled on its own floor: handover {handover}")?;
            }
        }
    }
    Ok(())
}

// Fills the book until it refuses.
fn fill_up<P: Plan>(rt: &HostRuntime, floor: &mut Floor<P>) -> anyhow::Result<()> {
    for count in 0..2000 {
        if let Err(refusal) = floor.hand_over(0, 1) {
            println!(rt;
                "after {count} more handovers: refused {}",
                refusal.number()
            )?;
            return Ok(());
        }
    }
    Err(anyhow!("the book never filled"))
}

// The upper floor: a path of four stations, in two stars, the groups built.
fn path(rt: &HostRuntime) -> anyhow::Result<GroupPlan> {
    let mut plan = GroupPlan::new(GroupRoom::new(rt.alloc())?);
    let routes = [(0, 1), (1, 2), (2, 3)].map(|(low, high)| Route {
        low,
        high,
        group: None,
    });
    plan.fill_routes(4, &routes)?;
    Ok(plan)
}

fn refusals_of_offers<P: Plan>(rt: &HostRuntime, floor: &mut Floor<P>) -> anyhow::Result<()> {
    hand(rt, floor, 7, 0)?;
    hand(rt, floor, 0, 0)?;
    hand(rt, floor, 0, 2)?;
    Ok(())
}

fn readings<P: Plan>(rt: &HostRuntime, floor: &Floor<P>) -> anyhow::Result<()> {
    ask(rt, floor, 0, 1)?;
    ask(rt, floor, 0, 2)?;
    ask(rt, floor, 4, 2)?;
    ask(rt, floor, 3, 3)?;
    ask(rt, floor, 0, 5)?;
    latest(rt, floor, 5)?;
    latest(rt, floor, 2)?;
    latest(rt, floor, 7)?;
    show_stamp(rt, floor, 5)
}

// A list that is too short for the stamp stays as it was.
fn short_list<P: Plan>(rt: &HostRuntime, floor: &Floor<P>) -> anyhow::Result<()> {
    let mut few = [9; 5];
    if let Err(refusal) = floor.stamp(0, &mut few) {
        println!(rt;
            "a list of five places: refused {}, still {few:?}",
            refusal.number()
        )?;
    }
    Ok(())
}

fn play(rt: &HostRuntime) -> anyhow::Result<()> {
    let lower = StationPlan::new(3);
    if let Err(refusal) = Join::check(&StationPlan::new(16), &StationPlan::new(16), 0, 0) {
        println!(rt; "16 stations above 16: refused {}", refusal.number())?;
    }
    let mut closed = [false; 32];
    closed[2] = true;
    let shop = Closing::new(Join::new(lower, path(rt)?, 1, 0), closed);
    let mut floor = Floor::new(BookRoom::new(rt.alloc())?, shop);
    waiting(rt, &mut floor)?;
    hand(rt, &mut floor, 1, 3)?;
    hand(rt, &mut floor, 5, 6)?;
    hand(rt, &mut floor, 3, 4)?;
    hand(rt, &mut floor, 4, 5)?;
    refusals_of_offers(rt, &mut floor)?;
    readings(rt, &floor)?;
    short_list(rt, &floor)?;
    let mut other = Floor::new(BookRoom::new(rt.alloc())?, StationPlan::new(2));
    foreign(rt, &mut floor, &mut other)?;
    fill_up(rt, &mut floor)
}

fn main(rt: HostRuntime) -> anyhow::Result<()> {
    play(&rt)
}
