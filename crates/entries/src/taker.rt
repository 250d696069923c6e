// What charging functions mean to a session: takers of requests, and those that have a profile besides.
ghost use Rattle.std.specs.Prelude.{◌≡◌, ℕ, ◌≤◌, true, false, List, ◌∷◌, ◌++◌, length, is_ok, if◌then◌else◌};
ghost use Rattle.std.specs.List.{slice_get};
ghost use Rattle.entries.specs.declared.entry.Entry.{Entry as Row};
ghost use Rattle.entries.specs.declared.taker.Override.{Override as Change};
ghost use Rattle.entries.specs.Requests.{take_answer, declined_number};

use crate::entry::*;
use crate::request::*;
use thiserror::Error;

// Why a request is not taken.
#[derive(Clone, Copy, PartialEq, Eq, Debug, Error)]
pub enum Declined {
    #[error("the request is not well formed")]
    Malformed = 4,
    #[error("head and containers are more entries than the intake")]
    IntakeTooSmall = 10,
}

impl Declined {
    // The number that a caller meets: 4 or 10.
    pub fn number(self) -> u8
        ensures { result ≡ declined_number self }
    {
        self as u8
    }
}

// What a taker of that intake answers to a request.
pub fn admit(head: &Entry, containers: &[Entry], intake: usize) -> Result<(), Declined>
    ensures { result ≡ take_answer head.now containers.now intake }
{
    if !request_formed(head, containers) {
        return Err(Declined::Malformed);
    }
    if containers.len() >= intake {
        return Err(Declined::IntakeTooSmall);
    }
    Ok(())
}

// A taker of requests. It means a book, the list of entries that it took, and an intake, the number of entries that it
// would accept now.
pub trait Taker {
    ghost book: { Self → List Row };

    ghost room: { Self → ℕ };

    // what the taker is after it took a request, its memory included
    ghost took: { Self → Row → List Row → Self → Type 0 };

    // The intake. Asking changes nothing.
    fn intake(&self) -> usize
        ensures { result ≡ room self.now };

    // Takes a request, or declines it and stays as it is. Head and containers are apart, as a taker of anybody's has them.
    fn take(&mut self, head: &Entry, containers: &[Entry]) -> Result<(), Declined>
        ensures answer { result ≡ take_answer head.now containers.now (room self.old) }
        ensures after { book self.new ≡ (if is_ok result then book self.old ++ (head.now ∷ containers.now) else book self.old) }
        ensures memory { is_ok result ≡ true → took self.old head.now containers.now self.new }
        ensures declined { is_ok result ≡ false → self.new ≡ self.old };
}

// The most overrides of a profile.
pub const MOST_OVERRIDES: usize = 32;

// What a charging function wants of a trigger, in the numbers in which it comes: of a trigger, of a `Switch`, of a
// `Category`, and a threshold, of which 0 leaves what was. Any number may stand there; an override with one that is out of
// range, or of a trigger that the method lacks, is passed over.
#[derive(Clone, Copy, PartialEq, Eq, Debug)]
pub struct Override {
    pub trigger: u8,
    pub switch: u8,
    pub category: u8,
    pub threshold: u64,
}

// A taker that has a profile besides: at most 32 overrides.
pub trait ChargingFunction: Taker {
    ghost profile: { Self → List Change };

    // The override of that index; none past the end. Asking changes nothing.
    fn override_at(&self, i: usize) -> Option<Override>
        ensures value { result ≡ slice_get (profile self.now) i }
        ensures few { length (profile self.now) ≤ 32 };
}
