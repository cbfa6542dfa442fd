// One line of the day sheet, and the calls that add it to a text or write it.
ghost use Rattle.std.specs.Prelude.{◌≡◌, length, nat_le};
ghost use Rattle.text.specs.Laws.{Takes};
ghost use Rattle.text.specs.Line.{parted};
ghost use Rattle.lines.specs.Line.{line_text};
ghost use Rattle.lines.specs.Parts.{fields};
ghost use Rattle.lines.specs.Text.{text_after, text_reply};

use crate::parts::{handover_fits, put_counts, put_stations};
use order::kinds::Relation;
use refusals::Refusal;
use text::cursor::Cursor;
use text::measure::Measure;
use text::number::{put_labelled, put_number};
use text::refused::put_refused;
use text::sink::Sink;

// A line of the day sheet by its kind. Any numbers and any list of counts make a line.
#[derive(Clone, Copy)]
pub enum Line<'a> {
    RefusedFile {
        refusal: Refusal,
        place: u16,
    },
    Handover {
        number: u16,
        giver: u8,
        taker: u8,
        counts: &'a [u16],
    },
    RefusedHandover {
        giver: u8,
        taker: u8,
        refusal: Refusal,
    },
    Question {
        first: u16,
        second: u16,
        relation: Relation,
    },
    RefusedQuestion {
        first: u16,
        second: u16,
        refusal: Refusal,
    },
}

impl<'a> Line<'a> {
    // Writes the line at the start of `out` and answers its length; what lies past it stays.
    // Where `out` is shorter than the line, it is refused as too short and left as it was.
    pub fn write(self, out: &mut [u8]) -> Result<usize, Refusal>
        ensures reply { result ≡ text_reply out.old (line_text self.entry) }
        ensures after { out.new ≡ text_after out.old (line_text self.entry) }
    {
        if !self.fits(out.len()) {
            return Err(Refusal::TooShort);
        }
        let mut cursor = Cursor::new(out);
        self.put(&mut cursor);
        Ok(cursor.written().len())
    }

    // Is the line at most `room` bytes long? Only counts can make a line long; they are measured
    // where their number does not tell.
    fn fits(self, room: usize) -> bool
        ensures { result ≡ nat_le (length (line_text self.entry)) room }
    {
        if let Line::Handover {
            number,
            giver,
            taker,
            counts,
        } = self
        {
            if let Some(fits) = handover_fits(number, giver, taker, counts, room) {
                return fits;
            }
        }
        let mut measure = Measure::new(room);
        self.put(&mut measure);
        measure.left.is_some()
    }

    // Adds the line, where there is room for it.
    pub fn put<S: Sink>(self, out: &mut S)
        ensures { Takes S.has_room S.adds out.old (line_text self.entry) out.new }
    {
        self.put_fields(out);
        out.put(b"\n");
    }

    // Adds the fields of the line, with a space between each two, where there is room for them.
    fn put_fields<S: Sink>(self, out: &mut S)
        ensures { Takes S.has_room S.adds out.old (parted 32 (fields self.entry)) out.new }
    {
        match self {
            Line::RefusedFile { refusal, place } => put_refused(out, refusal, place),
            Line::Handover {
                number,
                giver,
                taker,
                counts,
            } => {
                put_number(out, number);
                put_stations(out, giver, taker);
                out.put(b" ");
                put_counts(out, counts);
            }
            Line::RefusedHandover {
                giver,
                taker,
                refusal,
            } => {
                out.put(b"-");
                put_stations(out, giver, taker);
                put_labelled(out, b" refused ", refusal.number() as u16);
            }
            Line::Question {
                first,
                second,
                relation,
            } => {
                put_number(out, first);
                put_labelled(out, b" ", second);
                out.put(b" ");
                out.put(relation.word().as_bytes());
            }
            Line::RefusedQuestion {
                first,
                second,
                refusal,
            } => {
                put_number(out, first);
                put_labelled(out, b" ", second);
                put_labelled(out, b" refused ", refusal.number() as u16);
            }
        }
    }
}
