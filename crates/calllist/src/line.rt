// The lines of a call list.
ghost use Rattle.std.specs.Prelude.{◌≡◌};
ghost use Rattle.calllist.specs.Words.{line_named, method_named};

use crate::key::ReadKey;
use crate::stop::*;
use arrayvec::ArrayVec;
use entries::taker::Override;
use session::event::Event;
use session::thresholds::Thresholds;
use std::num::ParseIntError;
use std::slice::Iter;
use std::str::FromStr;

// The most words behind a line's name: those of a session with its five thresholds.
const MOST_ARGUMENTS: usize = 7;

#[derive(Clone, Copy)]
pub enum CallName {
    Open,
    Start,
    Usage,
    End,
    Change,
    Tick,
    Intervene,
    Push,
    Finish,
    Shelve,
}

#[derive(Clone, Copy)]
pub enum Name {
    Session,
    Profile,
    Book,
    Link,
    Call(CallName),
}

impl FromStr for Name {
    type Err = Wrong;

    ghost from_str_gives = { λ word r. r ≡ line_named word };

    fn from_str(word: &str) -> Result<Name, Wrong> {
        match word {
            "session" => Ok(Name::Session),
            "profile" => Ok(Name::Profile),
            "book" => Ok(Name::Book),
            "link" => Ok(Name::Link),
            "open" => Ok(Name::Call(CallName::Open)),
            "start" => Ok(Name::Call(CallName::Start)),
            "usage" => Ok(Name::Call(CallName::Usage)),
            "end" => Ok(Name::Call(CallName::End)),
            "change" => Ok(Name::Call(CallName::Change)),
            "tick" => Ok(Name::Call(CallName::Tick)),
            "intervene" => Ok(Name::Call(CallName::Intervene)),
            "push" => Ok(Name::Call(CallName::Push)),
            "finish" => Ok(Name::Call(CallName::Finish)),
            "shelve" => Ok(Name::Call(CallName::Shelve)),
            _ => Err(Wrong::UnknownLine),
        }
    }
}

#[derive(Clone, Copy)]
pub enum MethodName {
    Converged,
    Offline,
    Qos,
}

impl FromStr for MethodName {
    type Err = Wrong;

    ghost from_str_gives = { λ word r. r ≡ method_named word };

    fn from_str(word: &str) -> Result<MethodName, Wrong> {
        match word {
            "converged" => Ok(MethodName::Converged),
            "offline" => Ok(MethodName::Offline),
            "qos" => Ok(MethodName::Qos),
            _ => Err(Wrong::Method),
        }
    }
}

// A decimal number, of digits alone.
pub(crate) fn number<N: FromStr<Err = ParseIntError>>(word: &str) -> Result<N, Wrong> {
    if word.starts_with('+') {
        return Err(Wrong::Number);
    }
    word.parse().map_err(|_| Wrong::Number)
}

pub(crate) fn next_number<N: FromStr<Err = ParseIntError>>(
    words: &mut Iter<'_, &str>,
) -> Result<N, Wrong> {
    number(words.next().ok_or(Wrong::Number)?)
}

// `session ID METHOD T12 T13 T14 T15 T16`
#[derive(Clone, Copy)]
pub struct SessionLine {
    pub id: u32,
    pub method: MethodName,
    pub thresholds: Thresholds,
}

// A call and its time.
#[derive(Clone, Copy)]
pub struct Timed<K> {
    pub event: Event<K>,
    pub time: u32,
}

// A line with something on it before a comment.
#[derive(Drop)]
pub struct Line<'a> {
    pub name: Name,
    // the name as it is written
    pub word: &'a str,
    arguments: ArrayVec<&'a str, MOST_ARGUMENTS>,
}

impl<'a> Line<'a> {
    // None where the line is empty. Nothing is allocated.
    pub(crate) fn read(text: &'a str) -> Result<Option<Line<'a>>, Wrong> {
        let mut words = text.split_whitespace().take_while(|w| !w.starts_with('#'));
        let Some(word) = words.next() else {
            return Ok(None);
        };
        let mut arguments = ArrayVec::new();
        for argument in words {
            arguments.try_push(argument).map_err(|_| Wrong::WordCount)?;
        }
        Ok(Some(Line {
            name: word.parse()?,
            word,
            arguments,
        }))
    }

    pub(crate) fn session(&self) -> Result<SessionLine, Wrong> {
        let [id, method, t12, t13, t14, t15, t16] = self.arguments.as_slice() else {
            return Err(Wrong::WordCount);
        };
        Ok(SessionLine {
            id: number(id)?,
            method: method.parse()?,
            thresholds: Thresholds {
                session_time: number(t12)?,
                session_volume: number(t13)?,
                changes: number(t14)?,
                line_time: number(t15)?,
                line_volume: number(t16)?,
            },
        })
    }

    // `profile TRIGGER SWITCH CATEGORY THRESHOLD`
    pub(crate) fn profile(&self) -> Result<Override, Wrong> {
        let [trigger, switch, category, threshold] = self.arguments.as_slice() else {
            return Err(Wrong::WordCount);
        };
        Ok(Override {
            trigger: number(trigger)?,
            switch: number(switch)?,
            category: number(category)?,
            threshold: number(threshold)?,
        })
    }

    // `book PLACES`
    pub(crate) fn places(&self) -> Result<u32, Wrong> {
        match self.arguments.as_slice() {
            [places] => number(places),
            _ => Err(Wrong::WordCount),
        }
    }

    // `link up` or `link down`
    pub(crate) fn link_up(&self) -> Result<bool, Wrong> {
        match self.arguments.as_slice() {
            ["up"] => Ok(true),
            ["down"] => Ok(false),
            [_] => Err(Wrong::LinkState),
            _ => Err(Wrong::WordCount),
        }
    }

    // A call: its key, what it has besides, and its time.
    pub(crate) fn call<K: ReadKey>(&self, name: CallName) -> Result<Timed<K>, Wrong> {
        let mut words = self.arguments.iter();
        let event = match name {
            CallName::Open => Event::Open,
            CallName::Start => Event::Start(K::read(&mut words)?),
            CallName::Usage => Event::Usage(
                K::read(&mut words)?,
                next_number(&mut words)?,
                next_number(&mut words)?,
            ),
            CallName::End => Event::End(K::read(&mut words)?),
            CallName::Change => Event::Change(next_number(&mut words)?),
            CallName::Tick => Event::Tick,
            CallName::Intervene => Event::Intervene,
            CallName::Push => Event::Push,
            CallName::Finish => Event::Finish(next_number(&mut words)?),
            CallName::Shelve => Event::Shelve,
        };
        match words.as_slice() {
            [time] => Ok(Timed {
                event,
                time: number(time)?,
            }),
            _ => Err(Wrong::WordCount),
        }
    }
}
