// The line of a refused file, which every text of a file has in place of its own lines.
ghost use Rattle.refusals.specs.Number.{number};
ghost use Rattle.text.specs.Laws.{Takes};
ghost use Rattle.text.specs.Line.{parted, refused_fields};

use crate::number::put_labelled;
use crate::sink::Sink;
use refusals::Refusal;

// Adds the fields of a refused file, where there is room for them; the line's end is not among them.
pub fn put_refused<S: Sink>(out: &mut S, refusal: Refusal, place: u16)
    ensures { Takes S.has_room S.adds out.old (parted 32 (refused_fields (number refusal) place)) out.new }
{
    put_labelled(out, b"refused ", refusal.number() as u16);
    put_labelled(out, b" at ", place);
}
