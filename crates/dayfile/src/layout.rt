// The layout of a day file: how many stations, and where its four sections are.
ghost use Rattle.std.specs.Prelude.{◌≡◌, ◌+◌, ◌*◌, ◌<◌, ◌≤◌, length, IfOk};
ghost use Rattle.dayfile.specs.Layout.{Reads, Spans, layout_verdict, pair_verdict, word};
ghost use Rattle.dayfile.specs.Records.{most_records, pair_place, record_size};
ghost use Rattle.dayfile.specs.Verdict.{verdict_of};

use super::records::Kind;
use super::refusal::{FileRefusal, refuse_if};
use super::section::Span;
use refusals::Refusal;

// The bytes ahead of the sections: the number of stations, a byte that is 0, and the four pairs of offset and length.
const HEAD: usize = 18;

// The most bytes that a file can have.
pub const MOST_BYTES: usize = 8192;

// The most stations that a file can have.
const MOST_STATIONS: u8 = 32;

// The most records that a file can have of each kind.
pub const MOST_ROUTES: usize = 496;

pub const MOST_GROUPS: usize = 32;

pub const MOST_HANDOVERS: usize = 1000;

pub const MOST_QUESTIONS: usize = 1000;

// A section of the file: the place of its first record, and how many it has.
#[derive(Clone, Copy, PartialEq, Eq, Debug)]
pub struct Section {
    pub start: usize,
    pub count: usize,
}

// What the first 18 bytes of a file say.
#[derive(Clone, Copy, PartialEq, Eq, Debug)]
pub struct Layout {
    pub stations: u8,
    pub routes: Section,
    pub groups: Section,
    pub handovers: Section,
    pub questions: Section,
}

// The bytes of a file, with the layout that they have.
#[derive(Clone, Copy)]
pub(crate) struct Sections<'a> {
    pub(crate) bytes: &'a [u8],
    pub(crate) layout: Layout,
    ghost reads: { Reads bytes.now layout },
}

impl Kind {
    // The place of the kind's pair of offset and length.
    fn pair(self) -> u16
        ensures { result ≡ pair_place self }
    {
        match self {
            Kind::Routes => 2,
            Kind::Groups => 6,
            Kind::Handovers => 10,
            Kind::Questions => 14,
        }
    }

    // How many bytes a record of the kind has.
    pub(crate) fn size(self) -> usize
        ensures { result ≡ record_size self }
    {
        match self {
            Kind::Routes => 3,
            Kind::Groups => 4,
            Kind::Handovers => 2,
            Kind::Questions => 4,
        }
    }

    // The most records of the kind that a file can have.
    fn most(self) -> usize
        ensures { result ≡ most_records self }
    {
        match self {
            Kind::Routes => MOST_ROUTES,
            Kind::Groups => MOST_GROUPS,
            Kind::Handovers => MOST_HANDOVERS,
            Kind::Questions => MOST_QUESTIONS,
        }
    }
}

// Two bytes from place `at`, low byte first.
fn read_word(bytes: &[u8], at: usize) -> u16
    requires { at + 1 < length bytes.now }
    ensures { result ≡ word bytes.now at }
{
    u16::from_le_bytes([bytes[at], bytes[at + 1]])
}

// The section of a kind, or what is wrong with its pair; it may start at `from`.
#[tactic(auto, using(crate::proofs::Sections::count_most), unfolding(crate::specs::Layout::pair_verdict))]
fn check_pair(bytes: &[u8], kind: Kind, from: usize) -> Result<Span, FileRefusal>
    requires { (18 ≤ length bytes.now) × (length bytes.now ≤ 8192) }
    ensures verdict { verdict_of result ≡ pair_verdict bytes.now (pair_place kind) from (record_size kind) (most_records kind) }
    ensures section { IfOk result (Spans bytes.now (pair_place kind) (record_size kind) (most_records kind)) }
{
    let (pair, size) = (kind.pair(), kind.size());
    let start = usize::from(read_word(bytes, usize::from(pair)));
    let len = usize::from(read_word(bytes, usize::from(pair) + 2));
    refuse_if(
        start < from || start + len > bytes.len(),
        Refusal::SectionOffset,
        pair,
    )?;
    refuse_if(len % size != 0, Refusal::SectionLength, pair)?;
    refuse_if(len > kind.most() * size, Refusal::Limit, pair)?;
    Ok(Span {
        start,
        count: len / size,
        size,
    })
}

// The sections, or the first thing that is wrong with the length, bytes 0 and 1, and the pairs.
#[tactic(auto, unfolding(crate::specs::Layout::layout_verdict))]
pub(crate) fn check_layout<'a>(bytes: &'a [u8]) -> Result<Sections<'a>, FileRefusal>
    ensures verdict { verdict_of result ≡ layout_verdict bytes.now }
    ensures bytes { IfOk result (λ s. s.bytes ≡ bytes.entry) }
{
    refuse_if(
        bytes.len() < HEAD || bytes.len() > MOST_BYTES,
        Refusal::FileLength,
        0,
    )?;
    let stations = bytes[0];
    refuse_if(stations == 0 || stations > MOST_STATIONS, Refusal::Limit, 0)?;
    refuse_if(bytes[1] != 0, Refusal::Limit, 1)?;
    let routes = check_pair(bytes, Kind::Routes, HEAD)?;
    let groups = check_pair(bytes, Kind::Groups, routes.end())?;
    let handovers = check_pair(bytes, Kind::Handovers, groups.end())?;
    let questions = check_pair(bytes, Kind::Questions, handovers.end())?;
    Ok(Sections {
        bytes,
        layout: Layout {
            stations,
            routes: routes.section(),
            groups: groups.section(),
            handovers: handovers.section(),
            questions: questions.section(),
        },
    })
}
