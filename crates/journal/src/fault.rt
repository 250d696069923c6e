// Refusals of a reader.
ghost use Rattle.std.specs.Prelude.{◌≡◌};
ghost use Rattle.journal.specs.Faults.{fault_number, fault_place, past_end_number};

use crate::layout::*;
use thiserror::Error;

// What is wrong with a journal's bytes.
#[derive(Clone, Copy, PartialEq, Eq, Debug, Error)]
pub enum Fault {
    #[error("too few or too many bytes: {0}")]
    Length(usize),
    #[error("the free offset is not that of as many entries, or past the end")]
    FreeOffset,
    #[error("the spare number is not 0")]
    Spare,
    #[error("the entry at offset {0} breaks the form of a request")]
    Form(usize),
    #[error("the entries are more or fewer requests than the header says")]
    RequestCount,
}

impl Fault {
    // The number that a caller meets: 11, 12 or 13.
    pub fn number(self) -> u8
        ensures { result ≡ fault_number self }
    {
        match self {
            Fault::Length(_) => 11,
            Fault::FreeOffset | Fault::Spare | Fault::RequestCount => 12,
            Fault::Form(_) => 13,
        }
    }

    // The place: the length, the offset of the header's number, or that of the entry.
    pub fn place(self) -> usize
        ensures { result ≡ fault_place self }
    {
        match self {
            Fault::Length(length) => length,
            Fault::FreeOffset => FREE_AT,
            Fault::Spare => SPARE_AT,
            Fault::Form(place) => place,
            Fault::RequestCount => REQUESTS_AT,
        }
    }
}

// An index past the last entry.
#[derive(Clone, Copy, PartialEq, Eq, Debug, Error)]
#[error("the index is past the last entry")]
pub struct PastEnd;

impl PastEnd {
    // The number that a caller meets.
    pub fn number(self) -> u8
        ensures { result ≡ past_end_number }
    {
        4
    }
}
