// The lines before the calls: session, profile and book.
ghost use Rattle.std.specs.Prelude.{◌≡◌};
ghost use Rattle.session.specs.Steps.{made, refused_why};
ghost use Rattle.calllist.specs.Shown.{session_made};

use crate::answer::*;
use crate::input::Input;
use crate::line::*;
use crate::stop::*;
use entries::link::Link;
use entries::making::Refused;
use entries::method::*;
use entries::taker::*;
use session::answer::NotMade;
use session::session::Session;
use std::alloc::AllocError;

// A session of any of the methods. Sessions of other keys are other types, and a boxed one may not be handed out.
#[derive(Drop)]
pub enum AnySession {
    Converged(Session<Converged>),
    Offline(Session<OfflineOnly>),
    Qos(Session<QosFlow>),
}

// The session of a making, a shelved one where it is refused, and what is told of it.
fn told_session<M: Method>(
    making: Result<Session<M>, Refused<NotMade, Session<M>>>,
) -> (Session<M>, Result<Answer, Rejection>)
    ensures session { result.0 ≡ made making }
    ensures told { result.1 ≡ session_made (refused_why making) }
{
    match making {
        Ok(session) => (session, Ok(Answer::Made)),
        Err(Refused { why, left }) => (left, Err(Rejection::Session(why))),
    }
}

// Makes the session of a line, and prints whether it was made.
fn make_session<M: Method>(
    rt: &(impl Print + AllocGlobal),
    method: M,
    line: SessionLine,
) -> Result<Session<M>, Stop> {
    let making = Session::new(rt.alloc(), method, line.id, line.thresholds);
    let (session, answer) = told_session(making);
    say(rt, "session", answer)?;
    Ok(session)
}

fn make_any(rt: &(impl Print + AllocGlobal), line: SessionLine) -> Result<AnySession, Stop> {
    Ok(match line.method {
        MethodName::Converged => AnySession::Converged(make_session(rt, Converged, line)?),
        MethodName::Offline => AnySession::Offline(make_session(rt, OfflineOnly, line)?),
        MethodName::Qos => AnySession::Qos(make_session(rt, QosFlow, line)?),
    })
}

// What was read up to the line of the book.
#[derive(Drop)]
pub struct Setup {
    pub session: Option<AnySession>,
    pub overrides: Vec<Override>,
    pub places: u32,
}

// Overrides past one more than a profile may have change nothing of the book's refusal, and are not kept.
fn keep_override(overrides: &mut Vec<Override>, o: Override) -> Result<(), AllocError> {
    if overrides.len() <= MOST_OVERRIDES {
        overrides.push(o)?;
    }
    Ok(())
}

// None where the input ends before the book.
pub(crate) fn read_setup(
    rt: &(impl Print + AllocGlobal),
    input: &mut Input,
) -> Result<Option<Setup>, Stop> {
    let mut session = None;
    let mut overrides = Vec::new(rt.alloc());
    for text in input.by_ref() {
        let text = text?;
        let Some(line) = Line::read(&text)? else {
            continue;
        };
        match line.name {
            Name::Session if session.is_some() => return Err(Wrong::SecondSession.into()),
            Name::Session => session = Some(make_any(rt, line.session()?)?),
            Name::Profile => keep_override(&mut overrides, line.profile()?)?,
            Name::Book => {
                return Ok(Some(Setup {
                    session,
                    overrides,
                    places: line.places()?,
                }));
            }
            Name::Link | Name::Call(_) => return Err(Wrong::NoBook.into()),
        }
    }
    Ok(None)
}

// The session where its line comes after that of the book; none at the end of the input. A link may be told before it.
pub(crate) fn await_session<F: ChargingFunction>(
    rt: &(impl Print + AllocGlobal),
    input: &mut Input,
    link: &mut Link<F>,
) -> Result<Option<AnySession>, Stop> {
    for text in input.by_ref() {
        let text = text?;
        let Some(line) = Line::read(&text)? else {
            continue;
        };
        match line.name {
            Name::Session => return Ok(Some(make_any(rt, line.session()?)?)),
            Name::Link => link.set_up(line.link_up()?),
            Name::Book => return Err(Wrong::SecondBook.into()),
            Name::Profile => return Err(Wrong::ProfileAfterBook.into()),
            Name::Call(_) => return Err(Wrong::NoSession.into()),
        }
    }
    Ok(None)
}
