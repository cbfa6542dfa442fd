// The day sheet of a file.
ghost use Rattle.std.specs.Prelude.{◌≡◌, vec_items};
ghost use Rattle.dayfile.specs.Check.{file_verdict};
ghost use Rattle.sheet.specs.Sheet.{IsSheet, OneSheet};

use crate::handovers::put_handovers;
use crate::questions::put_questions;
use crate::room::SheetRoom;
use book::floor::Floor;
use dayfile::file::DayFile;
use dayfile::refusal::FileRefusal;
use lines::line::Line;
use plans::plan::Plan;

// The text of a sheet, and why its file was refused, if it was: beside the text, and not in place of
// it, since the sheet of a refused file has a text too.
#[derive(Drop)]
pub struct Sheet {
    pub(crate) text: Vec<u8>,
    pub refusal: Option<FileRefusal>,
}

impl SheetRoom {
    // Prints the sheet of the file of these bytes, whatever they are.
    pub fn print(self, bytes: &[u8]) -> Sheet
        ensures sheet { IsSheet bytes.now (vec_items result.text) }
        ensures refusal { result.refusal ≡ file_verdict bytes.now }
    {
        let SheetRoom {
            mut plan,
            book,
            mut text,
        } = self;
        let file = DayFile::open(bytes);
        if let Err(e) = file.read(&mut plan) {
            let line = Line::RefusedFile {
                refusal: e.refusal,
                place: e.place,
            };
            line.put(&mut text);
            return Sheet {
                text,
                refusal: Some(e),
            };
        }
        let dials = plan.dials();
        let mut floor = Floor::new(book, plan);
        put_handovers(&mut text, &mut floor, dials, &file);
        put_questions(&mut text, &floor, &file);
        Sheet {
            text,
            refusal: None,
        }
    }
}

impl Sheet {
    // The text of the sheet.
    pub fn text(&self) -> &[u8]
        ensures { result.now ≡ vec_items self.now.text }
    {
        &self.text
    }
}

// A file has one sheet only.
pub fn sheets_stand()
    ensures { OneSheet }
{}
