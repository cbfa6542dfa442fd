// The parts of a line that are more than a word or a number.
ghost use Rattle.std.specs.Prelude.{◌≡◌, ◌∷◌, ◌++◌, length, decimal, nat_le, IfSome};
ghost use Rattle.text.specs.Laws.{Takes};
ghost use Rattle.lines.specs.Line.{commas, handover_line};

use text::number::{put_labelled, put_number};
use text::sink::Sink;

// Adds the giver and the taker, with a space before each.
pub(crate) fn put_stations<S: Sink>(out: &mut S, giver: u8, taker: u8)
    ensures { Takes S.has_room S.adds out.old ((32 ∷ decimal giver) ++ (32 ∷ decimal taker)) out.new }
{
    put_labelled(out, b" ", giver as u16);
    put_labelled(out, b" ", taker as u16);
}

// Adds counts, with a comma between each two.
pub(crate) fn put_counts<S: Sink>(out: &mut S, counts: &[u16])
    ensures { Takes S.has_room S.adds out.old (commas counts.now) out.new }
{
    let [first, others @ ..] = counts else {
        return;
    };
    put_number(out, *first);
    for count in others {
        put_labelled(out, b",", *count);
    }
}

// Is the line of a settled handover at most `room` bytes long? None where the number of its counts
// does not tell: a count takes two to six bytes, with the byte after it, and what stands before the
// counts at most fourteen.
pub(crate) fn handover_fits(
    number: u16,
    giver: u8,
    taker: u8,
    counts: &[u16],
    room: usize,
) -> Option<bool>
    ensures { IfSome result (λ fits. fits ≡ nat_le (length (handover_line number giver taker counts.now)) room) }
{
    if room >= 15 && counts.len() <= (room - 14) / 6 {
        Some(true)
    } else if counts.len() > room / 2 {
        Some(false)
    } else {
        None
    }
}
