// The octets of a key and a tariff period in a book.
ghost use Rattle.std.specs.Prelude.{◌≡◌, ◌≤◌, length};
ghost use Rattle.std.specs.List.{AllByRecursion};
ghost use Rattle.entries.specs.Octets.{counts_for};
ghost use Rattle.entries.specs.Sums.{most_summed, line_octets, unsummed_number, Within, summed};

use crate::entry::*;
use crate::key::*;
use crate::sequence::*;
use thiserror::Error;

// The most entries that are summed.
pub const MOST_SUMMED: usize = 32_768;

// Octets each way.
#[derive(Clone, Copy, PartialEq, Eq, Debug)]
pub struct Octets {
    pub uplink: Uplink,
    pub downlink: Downlink,
}

// Why a book is not summed.
#[derive(Clone, Copy, PartialEq, Eq, Debug, Error)]
pub enum Unsummed {
    #[error("the book has more than 32,768 entries")]
    TooManyEntries,
    #[error("the key is out of range")]
    KeyOutOfRange,
    #[error("the entries are not a sequence of well-formed requests")]
    NotRequests,
}

impl Unsummed {
    // The number that a caller meets: 4.
    pub fn number(self) -> u8
        ensures { result ≡ unsummed_number self }
    {
        match self {
            Unsummed::TooManyEntries | Unsummed::KeyOutOfRange | Unsummed::NotRequests => 4,
        }
    }
}

// Whether an entry is a container of the line and the tariff period.
fn counts_for(e: &Entry, line: LineId, period: u16) -> bool
    ensures { result ≡ counts_for line period e.now }
{
    let named = LineId {
        kind: e.kind,
        code: e.code,
    };
    named == line && e.period == period
}

// The octets of a line and a tariff period.
fn add_up(entries: &[Entry], line: LineId, period: u16) -> Octets
    requires short { length entries.now ≤ most_summed }
    requires within { AllByRecursion Within entries.now }
    ensures { result ≡ line_octets entries.now line period }
{
    let mut uplink = 0;
    let mut downlink = 0;
    for e in entries {
        if counts_for(e, line, period) {
            uplink += e.uplink.0;
            downlink += e.downlink.0;
        }
    }
    Octets {
        uplink: Uplink(uplink),
        downlink: Downlink(downlink),
    }
}

// The octets of a key and a tariff period in a book of at most 32,768 entries, which are well-formed requests.
pub fn sum<K: LineKey>(book: &[Entry], key: &K, period: u16) -> Result<Octets, Unsummed>
    ensures { result ≡ summed K.coding book.now key.now period }
{
    if book.len() > MOST_SUMMED {
        return Err(Unsummed::TooManyEntries);
    }
    let line = key.line().ok_or(Unsummed::KeyOutOfRange)?;
    count_requests(book).map_err(|_| Unsummed::NotRequests)?;
    Ok(add_up(book, line, period))
}
