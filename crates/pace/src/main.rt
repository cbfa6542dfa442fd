// What a relation and a settlement cost: bench/run counts the instructions of this program, and of plain Rust that does
// the same, for few and for many of each. Arguments: stations, handovers (at most 1,000), questions.
#![tactic(auto)]

use book::floor::Floor;
use book::room::BookRoom;
use order::kinds::Relation;
use plans::station::StationPlan;
use std::env;

// The numbers of the command line, 0 where one is missing.
fn numbers(rt: &HostRuntime) -> anyhow::Result<[u32; 3]> {
    let mut found = [0; 3];
    for (number, word) in found.iter_mut().zip(env::args(rt)?.skip(1)) {
        *number = word.as_str().parse()?;
    }
    Ok(found)
}

// Handovers between neighbours, round and round, each offered and settled by a call of its own: the two whose cost is
// measured.
fn hand_over(floor: &mut Floor<StationPlan>, stations: u8, count: u32) -> u32 {
    let mut settled = 0u32;
    let mut giver = 0u8;
    for _ in 0..count {
        let next = giver.saturating_add(1);
        let taker = if next < stations { next } else { 0 };
        if let Ok(offer) = floor.offer(giver, taker) {
            match floor.settle(offer) {
                Ok(_) => settled = settled.saturating_add(1),
                Err((_, back)) => {
                    let _ = floor.withdraw(back);
                }
            }
        }
        giver = taker;
    }
    settled
}

// Questions about pairs all over the book; how many were before.
fn ask(floor: &Floor<StationPlan>, settled: u32, count: u32) -> u32 {
    let mut before = 0u32;
    let mut a = 0u32;
    for i in 0..count {
        a = a.wrapping_mul(31).wrapping_add(i) & 1023;
        let b = (a ^ i) & 1023;
        if a < settled && b < settled {
            if let Ok(Relation::Before) = floor.relation(a as u16, b as u16) {
                before = before.saturating_add(1);
            }
        }
    }
    before
}

fn run(rt: &HostRuntime) -> anyhow::Result<()> {
    let [stations, handovers, questions] = numbers(rt)?;
    let n = (stations & 63) as u8;
    let mut floor = Floor::new(BookRoom::new(rt.alloc())?, StationPlan::new(n));
    let settled = hand_over(&mut floor, n, handovers);
    let before = ask(&floor, settled, questions);
    println!(rt; "{settled} settled, {before} before")?;
    Ok(())
}

fn main(rt: HostRuntime) -> anyhow::Result<()> {
    run(&rt)
}
