// Entries: what a book is a list of. A request is a head and the containers that follow it.

ghost use Rattle.std.specs.Prelude.{◌≡◌};
ghost use Rattle.entries.specs.Numbers.{kind_number, IsKindOf};

use crate::number::UnknownNumber;
use std::fmt;

// The kinds of entries: the first three are heads, the others containers.
#[derive(Clone, Copy, PartialEq, Eq, Debug)]
pub enum Kind {
    Initial = 1,
    Update,
    Termination,
    ServiceLine,
    QosLine,
}

impl Kind {
    pub fn number(self) -> u8
        ensures { result ≡ kind_number self }
    {
        self as u8
    }
}

impl TryFrom<u8> for Kind {
    type Error = UnknownNumber;

    ghost try_from_gives = { IsKindOf };

    fn try_from(number: u8) -> Result<Kind, UnknownNumber> {
        Ok(match number {
            1 => Kind::Initial,
            2 => Kind::Update,
            3 => Kind::Termination,
            4 => Kind::ServiceLine,
            5 => Kind::QosLine,
            _ => return Err(UnknownNumber),
        })
    }
}

// The most octets that a container, a total or a threshold may have.
pub const MOST_OCTETS: u64 = 999_999_999_999;

// Octets from the user to the network. The other direction is a type of its own, so that no code takes one for the other.
#[derive(Clone, Copy, PartialEq, Eq, Debug)]
pub struct Uplink(pub u64);

// Octets from the network to the user.
#[derive(Clone, Copy, PartialEq, Eq, Debug)]
pub struct Downlink(pub u64);

// An entry, its fields in the order of the layout. Kind and cause are numbers there: what comes from outside may hold any.
#[derive(Clone, Copy, PartialEq, Eq, Debug)]
pub struct Entry {
    pub kind: u8,
    pub cause: u8,
    pub period: u16,
    pub number: u32,
    pub from: u32,
    pub to: u32,
    pub code: u64,
    pub uplink: Uplink,
    pub downlink: Downlink,
}

// What fills a table before anything is written into it.
pub const BLANK_ENTRY: Entry = Entry {
    kind: 0,
    cause: 0,
    period: 0,
    number: 0,
    from: 0,
    to: 0,
    code: 0,
    uplink: Uplink(0),
    downlink: Downlink(0),
};

// As printed: the fields in the order of the layout, one space between.
impl fmt::Display for Entry {
    fn fmt<W: fmt::Write>(&self, f: &mut fmt::Formatter<W>) -> fmt::Result {
        let (up, down) = (self.uplink.0, self.downlink.0);
        write!(
            f,
            "{} {} {} {} ",
            self.kind, self.cause, self.period, self.number
        )?;
        write!(f, "{} {} {} {up} {down}", self.from, self.to, self.code)
    }
}
