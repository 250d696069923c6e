// Profiles of charging functions.
ghost use Rattle.std.specs.Prelude.{◌≡◌, ◌≤◌, length};
ghost use Rattle.std.specs.List.{slice_get};
ghost use Rattle.entries.specs.Numbers.{switch_number, category_number, IsSwitchOf, IsCategoryOf};

use crate::number::UnknownNumber;
use crate::taker::*;
use std::marker::Model;

// What an override makes of a trigger that is enabled or not.
#[derive(Clone, Copy, PartialEq, Eq, Debug)]
pub enum Switch {
    Leave = 0,
    Enable = 1,
    Disable = 2,
}

// What an override makes of a trigger's category.
#[derive(Clone, Copy, PartialEq, Eq, Debug)]
pub enum Category {
    Leave = 0,
    Deferred = 1,
    Immediate = 2,
}

impl Switch {
    pub fn number(self) -> u8
        ensures { result ≡ switch_number self }
    {
        self as u8
    }
}

impl Category {
    pub fn number(self) -> u8
        ensures { result ≡ category_number self }
    {
        self as u8
    }
}

impl TryFrom<u8> for Switch {
    type Error = UnknownNumber;

    ghost try_from_gives = { IsSwitchOf };

    fn try_from(number: u8) -> Result<Switch, UnknownNumber> {
        Ok(match number {
            0 => Switch::Leave,
            1 => Switch::Enable,
            2 => Switch::Disable,
            _ => return Err(UnknownNumber),
        })
    }
}

impl TryFrom<u8> for Category {
    type Error = UnknownNumber;

    ghost try_from_gives = { IsCategoryOf };

    fn try_from(number: u8) -> Result<Category, UnknownNumber> {
        Ok(match number {
            0 => Category::Leave,
            1 => Category::Deferred,
            2 => Category::Immediate,
            _ => return Err(UnknownNumber),
        })
    }
}

// Up to 32 lent overrides.
#[derive(Drop)]
pub struct Profile<'a> {
    overrides: &'a [Override],
}

impl<'a> Model for Profile<'a> {
    ghost use Rattle.std.specs.Prelude.{◌≤◌, List, length};
    ghost use Rattle.entries.specs.declared.taker.Override.{Override as Change};

    ghost Value = { List Change };

    ghost view = { λ p. p.overrides.now };

    ghost invariant = { λ p. length p.overrides.now ≤ 32 };
}

impl<'a> Profile<'a> {
    pub(crate) fn new(overrides: &'a [Override]) -> Profile<'a>
        requires { length overrides.now ≤ 32 }
        ensures { result ≡ overrides.now }
    {
        Profile { overrides }
    }

    // The override of that index; none past the end.
    pub fn get(&self, i: usize) -> Option<Override>
        ensures value { result ≡ slice_get self.now i }
        ensures few { length self.now ≤ 32 }
    {
        self.overrides.get(i).copied()
    }
}
