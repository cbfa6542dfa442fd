// A day file that has been checked once, when it was opened.
ghost use Rattle.dayfile.specs.Check.{file_verdict};
ghost use Rattle.dayfile.specs.Layout.{Reads};
ghost use Rattle.dayfile.specs.Verdict.{verdict_of};
ghost use Rattle.std.specs.Prelude.{◌≡◌, IfOk};
ghost use Rattle.std.proofs.Props.{props};

use super::check::check_file;
use super::layout::{Layout, Sections};
use super::refusal::FileRefusal;

// The bytes of a file, and its layout, or the first check that fails.
#[derive(Clone, Copy)]
pub struct DayFile<'a> {
    pub(crate) bytes: &'a [u8],
    pub(crate) layout: Result<Layout, FileRefusal>,
    ghost verdict: { verdict_of layout ≡ file_verdict bytes.now },
    ghost reads: { IfOk layout (Reads bytes.now) } by { Prim.hlevel props },
}

impl<'a> DayFile<'a> {
    // The file over `bytes`, checked.
    pub fn open(bytes: &'a [u8]) -> DayFile<'a>
        ensures { result.bytes ≡ bytes.entry }
    {
        DayFile {
            bytes,
            layout: check_file(bytes),
        }
    }

    // The first check that fails, if one does.
    pub fn refusal(&self) -> Option<FileRefusal>
        ensures { result ≡ file_verdict self.now.bytes.now }
    {
        self.layout.err()
    }

    // The sections of a file without a refusal.
    pub(crate) fn sections(&self) -> Result<Sections<'a>, FileRefusal>
        ensures verdict { verdict_of result ≡ file_verdict self.now.bytes.now }
        ensures bytes { IfOk result (λ s. s.bytes ≡ self.now.bytes) }
    {
        let layout = self.layout?;
        Ok(Sections {
            bytes: self.bytes,
            layout,
        })
    }
}
