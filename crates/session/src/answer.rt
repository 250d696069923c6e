// What calls answer.
ghost use Rattle.std.specs.Prelude.{◌≡◌};
ghost use Rattle.session.specs.declared.answer.NotMade.TheVariants.{NoMemory};
ghost use Rattle.session.specs.declared.answer.Refusal.TheVariants.{OutOfRange};
ghost use Rattle.session.specs.Answers.{number, not_made_number};

use entries::number::UnknownNumber;
use std::alloc::AllocError;
use thiserror::Error;

// Why a call is refused. The first that holds is answered, in the order of the numbers.
#[derive(Clone, Copy, PartialEq, Eq, Debug, Error)]
pub enum Refusal {
    #[error("the call is not for a session in this phase")]
    WrongPhase = 1,
    #[error("the slip has another charging id")]
    OtherSlip,
    #[error("the time is before that of the last accepted call")]
    Early,
    #[error("an argument is out of range, or the method lacks the trigger")]
    OutOfRange,
    #[error("a start of a line that is active")]
    LineActive,
    #[error("the key has no active line")]
    NoActiveLine,
    #[error("a new key where 32 lines are known")]
    TooManyLines,
    #[error("a total, a tariff period or a container number would be too large")]
    TooLarge,
    #[error("more containers than may wait")]
    WaitingFull,
    #[error("head and containers are more entries than the taker's intake")]
    IntakeTooSmall,
}

impl Refusal {
    // The number that a caller meets: 1 to 10.
    pub fn number(self) -> u8
        ensures { result ≡ number self }
    {
        self as u8
    }
}

// A number that no trigger has is out of range.
impl From<UnknownNumber> for Refusal {
    ghost from_gives = { λ _ r. r ≡ OutOfRange };

    fn from(_: UnknownNumber) -> Refusal {
        Refusal::OutOfRange
    }
}

// Why a session is not made.
#[derive(Clone, Copy, PartialEq, Eq, Debug, Error)]
pub enum NotMade {
    #[error("a threshold is too large")]
    OutOfRange = 4,
    #[error("there is no memory for its lines and containers")]
    NoMemory = 14,
}

impl NotMade {
    // The number that a caller meets: 4 or 14.
    pub fn number(self) -> u8
        ensures { result ≡ not_made_number self }
    {
        self as u8
    }
}

impl From<AllocError> for NotMade {
    ghost from_gives = { λ _ r. r ≡ NoMemory };

    fn from(_: AllocError) -> NotMade {
        NotMade::NoMemory
    }
}

// How many overrides an opening applied, and how many it passed over.
#[derive(Clone, Copy, PartialEq, Eq, Debug)]
pub struct Opened {
    pub applied: usize,
    pub passed: usize,
}

// What became of the report: none was due, or one of so many containers was sent, or is held back.
#[derive(Clone, Copy, PartialEq, Eq, Debug)]
pub enum Due {
    Nothing,
    Sent(usize),
    Held(usize),
}

// How many containers a call closed, and what became of the report.
#[derive(Clone, Copy, PartialEq, Eq, Debug)]
pub struct Reported {
    pub closed: usize,
    pub due: Due,
}
