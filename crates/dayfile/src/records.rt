// The records of a day file, one at a time, each with its own bytes.
ghost use Rattle.std.specs.Prelude.{◌≡◌, ◌<◌};
ghost use Rattle.dayfile.specs.Layout.{Spans};
ghost use Rattle.dayfile.specs.Records.{kind_number, most_records, pair_place, part_of, record_at, record_size, records_from, records_left, told_if, told_record};
ghost use Rattle.std.specs.Iterator.{YieldsFirstBy, item_count};

use super::file::DayFile;
use super::layout::Sections;
use super::section::Span;

// The four kinds of records.
#[derive(Clone, Copy, PartialEq, Eq, Debug)]
pub enum Kind {
    Routes,
    Groups,
    Handovers,
    Questions,
}

// One record, with its own bytes of the file: 3 of a route, 4 of a group, 2 of a handover, 4 of a question.
#[derive(Clone, Copy, PartialEq, Eq, Debug)]
pub enum Record<'a> {
    Route(&'a [u8]),
    Group(&'a [u8]),
    Handover(&'a [u8]),
    Question(&'a [u8]),
}

// The records of a kind, in order, from the first that has not been taken yet.
#[derive(Clone, Copy)]
pub struct Records<'a> {
    pub(crate) file: DayFile<'a>,
    pub(crate) kind: Kind,
    pub(crate) index: usize,
}

impl<'a> Iterator for Records<'a> {
    type Item = Record<'a>;

    ghost next_gives = { YieldsFirstBy told_record records_left };

    ghost remaining = { item_count records_left };

    fn next(&mut self) -> Option<Record<'a>> {
        let record = self.file.record(self.kind, self.index)?;
        self.index += 1;
        Some(record)
    }
}

impl<'a> DayFile<'a> {
    // The records of a kind, from the first to the last: none of a refused file.
    pub fn records(&self, kind: Kind) -> Records<'a>
        ensures { records_left result ≡ records_from self.now.bytes kind 0 }
    {
        Records {
            file: *self,
            kind,
            index: 0,
        }
    }

    // Record `index` of a kind: none past the last, and none of a refused file.
    pub fn record(&self, kind: Kind, index: usize) -> Option<Record<'a>>
        ensures { told_if result ≡ record_at self.now.bytes kind index }
    {
        let sections = self.sections().ok()?;
        let section = sections.span(kind);
        if index >= section.count {
            return None;
        }
        Some(kind.record(sections.record(section, index)))
    }
}

impl<'a> Sections<'a> {
    // The section of a kind, with the size of its records.
    pub(crate) fn span(&self, kind: Kind) -> Span
        ensures { Spans self.now.bytes.now (pair_place kind) (record_size kind) (most_records kind) result }
    {
        match kind {
            Kind::Routes => self.layout.routes.span(kind),
            Kind::Groups => self.layout.groups.span(kind),
            Kind::Handovers => self.layout.handovers.span(kind),
            Kind::Questions => self.layout.questions.span(kind),
        }
    }
}

impl Kind {
    // The record of this kind that has these bytes.
    fn record<'a>(self, bytes: &'a [u8]) -> Record<'a>
        ensures { told_record result ≡ (kind_number self, part_of bytes.entry) }
    {
        match self {
            Kind::Routes => Record::Route(bytes),
            Kind::Groups => Record::Group(bytes),
            Kind::Handovers => Record::Handover(bytes),
            Kind::Questions => Record::Question(bytes),
        }
    }
}
