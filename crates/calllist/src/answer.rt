// Answers as they are printed.
ghost use Rattle.std.specs.Prelude.{◌≡◌, Some};

use crate::stop::Stop;
use entries::making::Unmade;
use session::answer::*;
use std::fmt;

// What is accepted.
#[derive(Clone, Copy)]
pub enum Answer {
    Made,
    Opened(Opened),
    Reported(Reported),
    Sent(usize),
    Waiting(usize),
}

// What is not: a session's making, a book's, or a call, which may also lack its slip.
#[derive(Clone, Copy)]
pub enum Rejection {
    Session(NotMade),
    Book(Unmade),
    Call(Refusal),
    NoSlip,
}

impl From<Refusal> for Rejection {
    ghost use Rattle.calllist.specs.declared.answer.Rejection.TheVariants.{Call};

    ghost from_gives = { λ refusal r. r ≡ Call refusal };

    fn from(refusal: Refusal) -> Rejection {
        Rejection::Call(refusal)
    }
}

impl fmt::Display for Answer {
    ghost use Rattle.calllist.specs.Printed.{answer_text};

    ghost output = { λ answer. Some (answer_text answer) };

    fn fmt<W: fmt::Write>(&self, f: &mut fmt::Formatter<W>) -> fmt::Result {
        match self {
            Answer::Made => write!(f, "made"),
            Answer::Opened(Opened { applied, passed }) => {
                write!(f, "applied {applied} passed {passed}")
            }
            Answer::Reported(Reported { closed, due }) => match due {
                Due::Nothing => write!(f, "closed {closed} nothing"),
                Due::Sent(sent) => write!(f, "closed {closed} sent {sent}"),
                Due::Held(held) => write!(f, "closed {closed} held {held}"),
            },
            Answer::Sent(n) => write!(f, "sent {n}"),
            Answer::Waiting(n) => write!(f, "waiting {n}"),
        }
    }
}

impl fmt::Display for Rejection {
    ghost use Rattle.calllist.specs.Printed.{rejection_text};

    ghost output = { λ why. Some (rejection_text why) };

    fn fmt<W: fmt::Write>(&self, f: &mut fmt::Formatter<W>) -> fmt::Result {
        match self {
            Rejection::Session(why) => write!(f, "refused {}", why.number()),
            Rejection::Call(why) => write!(f, "refused {}", why.number()),
            Rejection::Book(why) => match why.place() {
                None => write!(f, "refused {}", why.number()),
                Some(place) => write!(f, "refused {} {place}", why.number()),
            },
            Rejection::NoSlip => write!(f, "no slip"),
        }
    }
}

pub(crate) fn say(
    rt: &impl Print,
    name: &str,
    answer: Result<Answer, Rejection>,
) -> Result<(), Stop> {
    match answer {
        Ok(answer) => println!(rt; "{name}: {answer}")?,
        Err(rejection) => println!(rt; "{name}: {rejection}")?,
    }
    Ok(())
}
