// What ends a run early.
ghost use Rattle.std.specs.Prelude.{◌≡◌};
ghost use Rattle.calllist.specs.declared.stop.Stop.TheVariants.{Line, Output, Memory};

use std::alloc::AllocError;
use std::{fmt, io};

// What is wrong with a line.
#[derive(Clone, Copy)]
pub enum Wrong {
    UnknownLine,
    WordCount,
    Number,
    Method,
    LinkState,
    SecondSession,
    SecondBook,
    ProfileAfterBook,
    NoSession,
    NoBook,
}

impl fmt::Display for Wrong {
    fn fmt<W: fmt::Write>(&self, f: &mut fmt::Formatter<W>) -> fmt::Result {
        f.write_str(match self {
            Wrong::UnknownLine => "no such line",
            Wrong::WordCount => "wrong number of words",
            Wrong::Number => "not a number of its type",
            Wrong::Method => "no such method",
            Wrong::LinkState => "a link is up or down",
            Wrong::SecondSession => "a second session",
            Wrong::SecondBook => "a second book",
            Wrong::ProfileAfterBook => "a profile line after the book",
            Wrong::NoSession => "a call before the session",
            Wrong::NoBook => "a call before the book",
        })
    }
}

#[derive(Clone, Copy)]
pub enum Stop {
    Line(Wrong),
    Input,
    Output,
    Memory,
}

impl From<Wrong> for Stop {
    ghost from_gives = { λ wrong r. r ≡ Line wrong };

    fn from(wrong: Wrong) -> Stop {
        Stop::Line(wrong)
    }
}

// Of printing; input that cannot be read is told apart where it is read.
impl From<io::Error> for Stop {
    ghost from_gives = { λ _ r. r ≡ Output };

    fn from(_error: io::Error) -> Stop {
        Stop::Output
    }
}

impl From<AllocError> for Stop {
    ghost from_gives = { λ _ r. r ≡ Memory };

    fn from(_error: AllocError) -> Stop {
        Stop::Memory
    }
}
