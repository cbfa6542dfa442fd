// The refusal of a day file, with the place where it shows.
ghost use Rattle.std.specs.Prelude.{◌≡◌, Some};
ghost use Rattle.dayfile.specs.Verdict.{packed, refusal_text, refuse_if, verdict_of};

use refusals::Refusal;
use std::error::Error;
use std::fmt;

// Why a day file is refused, and the place of the byte where that shows.
#[derive(Clone, Copy, PartialEq, Eq, Debug)]
pub struct FileRefusal {
    pub refusal: Refusal,
    pub place: u16,
}

// For C: the refusal's number times 65,536 plus its place.
impl From<FileRefusal> for u32 {
    ghost from_gives = { λ e reply. reply ≡ packed (Some e) };

    fn from(e: FileRefusal) -> u32 {
        u32::from(e.refusal.number()) * 65536 + u32::from(e.place)
    }
}

impl fmt::Display for FileRefusal {
    ghost output = { λ e. Some (refusal_text e) };

    fn fmt<W: fmt::Write>(&self, f: &mut fmt::Formatter<W>) -> fmt::Result {
        let (number, place) = (self.refusal.number(), self.place);
        write!(f, "refused {number} at {place}")
    }
}

impl Error for FileRefusal {}

// A refusal where something is wrong.
pub(crate) fn refuse_if(wrong: bool, refusal: Refusal, place: u16) -> Result<(), FileRefusal>
    ensures { verdict_of result ≡ refuse_if wrong refusal place }
{
    if wrong {
        Err(FileRefusal { refusal, place })
    } else {
        Ok(())
    }
}
