//! Every refusal of the handover book, each with its number.
#![tactic(auto)]

ghost use Rattle.std.specs.Prelude.{◌≡◌, ◌==◌, ◌↔◌, IsTrue, Some};
ghost use Rattle.std.specs.Fmt.{padded};
ghost use Rattle.refusals.specs.Number.{number, refusal_of};
ghost use Rattle.refusals.specs.Advice.{advice};

use std::error::Error;
use std::fmt;

// Why a call was refused, with the number by which users know it. docs/REFUSALS.md has a line for
// each, with what to do.
#[derive(Clone, Copy, PartialEq, Eq, Debug)]
pub enum Refusal {
    FileLength = 1,
    SectionOffset = 2,
    SectionLength = 3,
    Limit = 4,
    RouteOrder = 5,
    GroupRecord = 6,
    RouteGroup = 7,
    GroupIncomplete = 8,
    NoStation = 9,
    SameStation = 10,
    NoRoute = 11,
    Busy = 12,
    BookFull = 13,
    NotPending = 14,
    NotSettled = 15,
    TooShort = 16,
    JoinUnfit = 17,
}

impl Refusal {
    // No two refusals have the same number, and two refusals are equal exactly when their numbers are.
    pub fn number(self) -> u8
        ensures exact { result ≡ number self }
        ensures alone { refusal_of result ≡ Some self }
        ensures equal { (other : Refusal) → ⟦<Refusal as PartialEq>⟧.eq self other ≡ (result == number other) }
        ensures same { (other : Refusal) → IsTrue (⟦<Refusal as PartialEq>⟧.eq self other) ↔ (self ≡ other) }
    {
        self as u8
    }

    // Why the refusal came, and what to do, in words for a person.
    pub fn advice(self) -> &'static str
        ensures { result.now ≡ advice self }
    {
        match self {
            Refusal::FileLength =>
                "The file is shorter than 18 bytes or longer than 8,192. Send the whole file, and one day in each.",
            Refusal::SectionOffset =>
                "A section starts before byte 18, before the end of the section ahead of it, or ends past the file. Mend the offset and length at the place.",
            Refusal::SectionLength =>
                "A section's length is no multiple of its record's: 3 for routes, 4 for groups, 2 for handovers, 4 for questions. Mend the length at the place.",
            Refusal::Limit =>
                "Byte 0 is not 1 to 32, byte 1 is not 0, or a section has too many records. Mend the byte, or split the day.",
            Refusal::RouteOrder =>
                "A route's lower end is not below its higher, its higher end is not a station, or it does not come after the route ahead of it. Write each route once, lower end first, in ascending order.",
            Refusal::GroupRecord =>
                "A group's kind, a station of it or a filler byte is wrong. Write `0 centre 0 0` or `1 a b c` with a < b < c, all stations below n.",
            Refusal::RouteGroup =>
                "A route names a group that is not there, or whose shape it does not fit; or it does not have 255 where no groups are given. Name the route's group, or leave all groups out and write 255.",
            Refusal::GroupIncomplete =>
                "A star has no route, or a triangle lacks one of its three. Take the group out, or give it its routes.",
            Refusal::NoStation =>
                "A station number is not below the number of stations. Name a station of the floor.",
            Refusal::SameStation => "The giver is the taker. Name two stations.",
            Refusal::NoRoute =>
                "The plan has no such route. Hand over by stations that have a route.",
            Refusal::Busy =>
                "A station is not free: it gives or takes in a pending offer. Settle or withdraw that offer first.",
            Refusal::BookFull =>
                "Settled and pending handovers make 1,000. Withdraw what is pending, or open a new book.",
            Refusal::NotPending =>
                "The offer is not pending here: its giver is not marked as giving to its taker, or the taker not as taking from it. Bring the offer to its own floor. A settlement hands it back; a withdrawal has spent it.",
            Refusal::NotSettled =>
                "A handover number that is not settled yet. Ask for a number below that of the settled handovers.",
            Refusal::TooShort =>
                "The list has fewer places than the plan has dials, or the buffer is shorter than the line. Lend a longer one.",
            Refusal::JoinUnfit =>
                "A join does not fit: too many stations or dials, or a lift end that is no station of its half. Join smaller plans, or name other lift ends.",
        }
    }
}

impl fmt::Display for Refusal {
    ghost output = { λ e. Some (advice e) };

    ghost styled_output = { λ e spec. Some (padded spec (advice e)) };

    fn fmt<W: fmt::Write>(&self, f: &mut fmt::Formatter<W>) -> fmt::Result {
        f.pad(self.advice())
    }
}

impl Error for Refusal {}
