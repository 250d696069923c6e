// Makings: a charging function over lent memory is made, or refused.
ghost use Rattle.std.specs.Prelude.{◌≡◌, []};
ghost use Rattle.entries.specs.Makings.{unmade_number, unmade_place, Lent};

use crate::entry::*;
use crate::profile::*;
use crate::taker::*;
use std::error::Error;
use std::fmt;
use std::fmt::{Debug, Display};

// Why the making of a book or a journal is refused.
#[derive(Clone, Copy, PartialEq, Eq, Debug, thiserror::Error)]
pub enum Unmade {
    #[error("the profile has more than 32 overrides")]
    TooManyOverrides,
    #[error("the lent memory is too long or too short: {0}")]
    WrongLength(usize),
}

impl Unmade {
    // The number that a caller meets: 4 or 11.
    pub fn number(self) -> u8
        ensures { result ≡ unmade_number self }
    {
        match self {
            Unmade::TooManyOverrides => 4,
            Unmade::WrongLength(_) => 11,
        }
    }

    // The place of number 11: the length of the lent memory.
    pub fn place(self) -> Option<usize>
        ensures { result ≡ unmade_place self }
    {
        match self {
            Unmade::TooManyOverrides => None,
            Unmade::WrongLength(length) => Some(length),
        }
    }
}

// A making that is refused: why, and what it leaves.
#[derive(Drop)]
pub struct Refused<W, T> {
    pub why: W,
    pub left: T,
}

impl<W: Debug, T> Debug for Refused<W, T> {
    fn fmt<F: fmt::Write>(&self, f: &mut fmt::Formatter<F>) -> fmt::Result {
        self.why.fmt(f)
    }
}

impl<W: Display, T> Display for Refused<W, T> {
    fn fmt<F: fmt::Write>(&self, f: &mut fmt::Formatter<F>) -> fmt::Result {
        self.why.fmt(f)
    }
}

impl<W: Error, T: Drop> Error for Refused<W, T> {}

// The intake of what is left of a charging function.
const NO_INTAKE: usize = 0;

// What is left of a charging function takes nothing for good, and has no profile.
impl<T> Taker for Refused<Unmade, T> {
    ghost book = { λ _. [] };

    ghost room = { λ _. 0 };

    ghost took = { λ _ _ _ _. ⊥ };

    fn intake(&self) -> usize {
        NO_INTAKE
    }

    fn take(&mut self, head: &Entry, containers: &[Entry]) -> Result<(), Declined> {
        admit(head, containers, NO_INTAKE)
    }
}

impl<T> ChargingFunction for Refused<Unmade, T> {
    ghost profile = { λ _. [] };

    fn override_at(&self, _i: usize) -> Option<Override> {
        None
    }
}

// The profile of a charging function over so much lent memory, of which there have to be so many places, or why it is not
// made.
pub fn lend<'a>(
    overrides: &'a [Override],
    length: usize,
    fewest: usize,
    most: usize,
) -> Result<Profile<'a>, Unmade>
    ensures { Lent overrides.now length fewest most result }
{
    if overrides.len() > MOST_OVERRIDES {
        return Err(Unmade::TooManyOverrides);
    }
    if length < fewest || length > most {
        return Err(Unmade::WrongLength(length));
    }
    Ok(Profile::new(overrides))
}
