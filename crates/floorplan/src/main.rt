// Reads a day file from standard input, and prints its floor: stations, counts, and each group with its routes.
#![tactic(auto)]

ghost use Rattle.std.specs.Prelude.{◌≤◌, length, IfOk};

use dayfile::layout::MOST_BYTES;
use dayfile::refusal::FileRefusal;
use floortext::room::FloorRoom;
use refusals::Refusal;
use std::io;
use std::io::{Read, Write};
use std::process::ExitCode;

// One more than the longest file, so that a longer one is seen to be too long without being kept.
const MOST: usize = MOST_BYTES + 1;

// Reads until the buffer is full or the input ends, and says how many bytes there are. A loop over `read`: what the
// library reads to the end goes into a vector, which asks for memory, and its `copy` has a buffer of its own.
fn fill(input: &mut impl Read, buf: &mut [u8]) -> io::Result<usize>
    ensures { IfOk result (λ n. n ≤ length buf.new) }
{
    let mut len = 0;
    while len < buf.len() {
        let k = input.read(&mut buf[len..])?;
        if k == 0 {
            break;
        }
        len += k;
    }
    Ok(len)
}

// What is wrong with a refused file, and what to do: the words that this program has always printed,
// which are not those of `Refusal::advice`.
fn advice(refusal: Refusal) -> &'static str {
    match refusal {
        Refusal::FileLength =>
            "a day file has 18 to 8,192 bytes: send the whole file, and nothing else",
        Refusal::SectionOffset =>
            "a section starts at byte 18 or later, not before the end of the one ahead, and ends within the file: mend its offset or its length",
        Refusal::SectionLength =>
            "a section's length is a multiple of its record's, 3 for routes, 4 for groups, 2 for handovers, 4 for questions: mend its length",
        Refusal::Limit =>
            "a day has 1 to 32 stations, byte 1 is 0, and there are at most 496 routes, 32 groups, 1,000 handovers and 1,000 questions: split the day",
        Refusal::RouteOrder =>
            "a route's lower end is below its higher, which is below the number of stations, and routes ascend: mend or sort the routes",
        Refusal::GroupRecord =>
            "a group is `0 centre 0 0` or `1 a b c` with ascending stations of the day: mend its record",
        Refusal::RouteGroup =>
            "a route's group is there and has the route's shape, or is 255 where no groups are given: mend the route's group",
        Refusal::GroupIncomplete =>
            "a star has a route, and a triangle its three: give the group its routes, or take it out",
        _ => "this is no refusal of a file",
    }
}

// Says on standard error why a file is refused.
fn explain(rt: &HostRuntime, e: FileRefusal) {
    let advice = advice(e.refusal);
    // The reply stands on standard output, so a lost explanation is no failure.
    let _ = eprintln!(rt; "floorplan: {e}: {advice}; see docs/REFUSALS.md");
}

fn run(rt: &HostRuntime) -> anyhow::Result<()> {
    let mut room = FloorRoom::new(rt.alloc())?;
    let mut bytes = [0; MOST];
    let len = fill(&mut rt.stdin(), &mut bytes)?;
    let verdict = room.print(&bytes[..len]);
    rt.stdout().write_all(room.text())?;
    if let Err(e) = verdict {
        explain(rt, e);
    }
    Ok(())
}

// The one line of an error names the program, so main answers the status, and not the error for the runtime to print.
// Both programs have these lines: a crate for them would be longer than they are.
fn main(rt: HostRuntime) -> ExitCode {
    match run(&rt) {
        Ok(()) => ExitCode::SUCCESS,
        Err(e) => {
            let _ = eprintln!(rt; "floorplan: {e}");
            ExitCode::FAILURE
        }
    }
}
