// The handovers of a day file, each offered and settled on the floor, with a line for each.
ghost use Rattle.std.specs.Prelude.{◌≡◌, ◌*◌, ◌<◌, [], None};
ghost use Rattle.dayfile.specs.Check.{file_verdict};
ghost use Rattle.book.specs.Shown.{settled_in};
ghost use Rattle.text.specs.Vector.{Room};
ghost use Rattle.sheet.specs.Day.{handover_at, handover_count};
ghost use Rattle.sheet.specs.Steps.{After, Comes, CountsIn, HandoverPut, HandoversPut, bytes_of, floor_meaning, handover_in};

use book::floor::Floor;
use dayfile::file::DayFile;
use dayfile::records::{Kind, Record};
use grouping::plan::GroupPlan;
use lines::line::Line;

// The giver and the taker, of the record of a handover.
fn stations_in(handover: Record) -> Option<(u8, u8)>
    ensures { result ≡ handover_in handover.entry }
{
    match handover {
        Record::Handover(&[giver, taker]) => Some((giver, taker)),
        _ => None,
    }
}

// The counts of a settled handover, in the first places of as many as a plan can have dials: a list of
// its own would ask for memory.
fn counts_of(floor: &Floor<GroupPlan>, handover: u16) -> [u16; 32]
    requires { handover < settled_in floor.now.book }
    ensures { CountsIn floor.now handover result }
{
    let mut counts = [0; 32];
    let _ = floor.stamp(handover, &mut counts);
    counts
}

// Hands over from a giver to a taker, and adds the line of it.
fn put_handover(out: &mut Vec<u8>, floor: &mut Floor<GroupPlan>, dials: u8, giver: u8, taker: u8)
    requires room { Room out.old 206 }
    requires dials { dials ≡ (floor_meaning floor.old).dials }
    requires comes { Comes floor.old }
    ensures { HandoverPut floor.old (giver, taker) out.old floor.new out.new }
{
    match floor.hand_over(giver, taker) {
        Ok(number) => {
            let counts = counts_of(floor, number);
            let counts = &counts[..dials as usize];
            let line = Line::Handover {
                number,
                giver,
                taker,
                counts,
            };
            line.put(out);
        }
        Err(refusal) => {
            let line = Line::RefusedHandover {
                giver,
                taker,
                refusal,
            };
            line.put(out);
        }
    }
}

// Carries out the handovers of a file on a new floor, in their order, and adds their lines.
pub(crate) fn put_handovers(
    out: &mut Vec<u8>,
    floor: &mut Floor<GroupPlan>,
    dials: u8,
    file: &DayFile,
)
    requires room { Room out.old (206 * 1000) }
    requires dials { dials ≡ (floor_meaning floor.old).dials }
    requires new { After [] floor.old }
    requires accepted { file_verdict (bytes_of file.now) ≡ None }
    ensures { HandoversPut floor.old (handover_at (bytes_of file.now)) (handover_count (bytes_of file.now)) out.old floor.new out.new }
{
    for record in file.records(Kind::Handovers) {
        if let Some((giver, taker)) = stations_in(record) {
            put_handover(out, floor, dials, giver, taker);
        }
    }
}
