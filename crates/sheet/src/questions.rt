// The questions of a day file, each asked of the floor, with a line for each.
ghost use Rattle.std.specs.Prelude.{◌≡◌, ◌*◌, None};
ghost use Rattle.lines.specs.Line.{line_text};
ghost use Rattle.dayfile.specs.Check.{file_verdict};
ghost use Rattle.text.specs.Vector.{Room};
ghost use Rattle.sheet.specs.Day.{question_at, question_count};
ghost use Rattle.sheet.specs.Steps.{QuestionPut, QuestionsPut, bytes_of, question_in, reply_text};

use book::floor::Floor;
use dayfile::file::DayFile;
use dayfile::records::{Kind, Record};
use grouping::plan::GroupPlan;
use lines::line::Line;
use order::kinds::Relation;
use refusals::Refusal;

// The two numbers, of the record of a question.
fn numbers_in(question: Record) -> Option<(u16, u16)>
    ensures { result ≡ question_in question.entry }
{
    match question {
        Record::Question(&[a, b, c, d]) => {
            let first = u16::from_le_bytes([a, b]);
            let second = u16::from_le_bytes([c, d]);
            Some((first, second))
        }
        _ => None,
    }
}

// The line of a question and the reply to it. None of the types is of this crate, so it is no `From`.
fn reply_line<'a>(first: u16, second: u16, reply: Result<Relation, Refusal>) -> Line<'a>
    ensures { line_text result ≡ reply_text first second reply }
{
    match reply {
        Ok(relation) => Line::Question {
            first,
            second,
            relation,
        },
        Err(refusal) => Line::RefusedQuestion {
            first,
            second,
            refusal,
        },
    }
}

// Asks how one handover stands to another, and adds the line of the reply.
fn put_question(out: &mut Vec<u8>, floor: &Floor<GroupPlan>, first: u16, second: u16)
    requires room { Room out.old 24 }
    ensures { QuestionPut floor.now (first, second) out.old out.new }
{
    reply_line(first, second, floor.relation(first, second)).put(out);
}

// Asks the questions of a file, in their order, and adds their lines.
pub(crate) fn put_questions(out: &mut Vec<u8>, floor: &Floor<GroupPlan>, file: &DayFile)
    requires room { Room out.old (24 * 1000) }
    requires accepted { file_verdict (bytes_of file.now) ≡ None }
    ensures { QuestionsPut floor.now (question_at (bytes_of file.now)) (question_count (bytes_of file.now)) out.old out.new }
{
    for record in file.records(Kind::Questions) {
        if let Some((first, second)) = numbers_in(record) {
            put_question(out, floor, first, second);
        }
    }
}
