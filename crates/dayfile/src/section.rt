// One section of a day file: where its records lie.
ghost use Rattle.std.specs.Prelude.{◌≡◌, ◌+◌, ◌*◌, ◌<◌, ◌≤◌, IfSome};
ghost use Rattle.dayfile.specs.Verdict.{refuse_at, refused, verdict_of};

use super::layout::Section;
use super::records::Kind;
use super::refusal::FileRefusal;
use refusals::Refusal;

// A section with the size of its records. It lies in the file, so that every place in it is one of the file's.
#[derive(Clone, Copy)]
pub(crate) struct Span {
    pub(crate) start: usize,
    pub(crate) count: usize,
    pub(crate) size: usize,
    ghost in_file: { start + count * size ≤ 8192 },
}

impl Section {
    ghost use Rattle.dayfile.specs.Records.{record_size};

    // The section, whose records are of this kind.
    pub(crate) fn span(self, kind: Kind) -> Span
        requires { self.start + self.count * record_size kind ≤ 8192 }
        ensures section { (result.start ≡ self.start) × (result.count ≡ self.count) }
        ensures size { result.size ≡ record_size kind }
    {
        Span {
            start: self.start,
            count: self.count,
            size: kind.size(),
        }
    }
}

impl Span {
    // The section alone.
    pub(crate) fn section(self) -> Section
        ensures { (result.start ≡ self.start) × (result.count ≡ self.count) }
    {
        Section {
            start: self.start,
            count: self.count,
        }
    }

    // The place after the last record.
    pub(crate) fn end(self) -> usize
        ensures { result ≡ self.start + self.count * self.size }
    {
        self.start + self.count * self.size
    }

    // The place of a record's first byte.
    pub(crate) fn place(self, index: usize) -> usize
        requires { index < self.count }
        ensures place { result ≡ self.start + self.size * index }
        ensures inside { result + self.size ≤ self.start + self.count * self.size }
    {
        self.start + self.size * index
    }

    // The refusal at a record.
    pub(crate) fn refusal(self, refusal: Refusal, index: usize) -> FileRefusal
        requires { index < self.count }
        ensures { result ≡ refused refusal (self.start + self.size * index) }
    {
        FileRefusal {
            refusal,
            place: self.place(index) as u16,
        }
    }

    // A refusal at the record that was found, if one was.
    pub(crate) fn refuse(self, refusal: Refusal, found: Option<usize>) -> Result<(), FileRefusal>
        requires { IfSome found (λ index. index < self.count) }
        ensures { verdict_of result ≡ refuse_at refusal self.start self.size found }
    {
        match found {
            Some(index) => Err(self.refusal(refusal, index)),
            None => Ok(()),
        }
    }
}
