// Running a whole call list: what is before the calls, the calls, and the book.
ghost use Rattle.std.specs.Prelude.{◌≡◌};
ghost use Rattle.session.specs.Steps.{refused_why};
ghost use Rattle.calllist.specs.Shown.{book_made, refused_at};

use crate::answer::*;
use crate::input::Input;
use crate::play::play;
use crate::setup::*;
use crate::stop::Stop;
use entries::book::*;
use entries::entry::*;
use entries::link::*;
use entries::making::*;
use entries::taker::*;

// Why a book of so many places is not made: one place too many is enough for the making to say so, with the places asked for.
fn places_refused(why: Unmade, places: u32) -> Unmade
    ensures { result ≡ refused_at places why }
{
    match why {
        Unmade::WrongLength(_) => Unmade::WrongLength(places as usize),
        Unmade::TooManyOverrides => why,
    }
}

// What is told of the making of a book of so many places.
fn told_book<T, L>(making: &Result<T, Refused<Unmade, L>>, places: u32) -> Result<Answer, Rejection>
    ensures { result ≡ book_made places (refused_why making.now) }
{
    match making {
        Ok(_) => Ok(Answer::Made),
        Err(refused) => Err(Rejection::Book(places_refused(refused.why, places))),
    }
}

// Plays the calls on a session of its method. Sessions of other keys are other types, so each method has its arm.
fn play_any<F: ChargingFunction>(
    rt: &HostRuntime,
    input: &mut Input,
    session: AnySession,
    link: &mut Link<F>,
) -> Result<(), Stop> {
    match session {
        AnySession::Converged(session) => play(rt, input, session, link),
        AnySession::Offline(session) => play(rt, input, session, link),
        AnySession::Qos(session) => play(rt, input, session, link),
    }
}

// Plays the lines behind the book on a charging function.
fn play_on<F: ChargingFunction>(
    rt: &HostRuntime,
    input: &mut Input,
    session: Option<AnySession>,
    link: &mut Link<F>,
) -> Result<(), Stop> {
    let session = match session {
        Some(session) => Some(session),
        None => await_session(rt, input, link)?,
    };
    match session {
        Some(session) => play_any(rt, input, session, link),
        None => Ok(()),
    }
}

// Runs a call list to its end.
fn run(rt: &HostRuntime, input: &mut Input) -> Result<(), Stop> {
    let Some(setup) = read_setup(rt, input)? else {
        return Ok(());
    };
    let Setup {
        session,
        overrides,
        places,
    } = setup;
    let asked = (places as usize).min(MOST_ENTRIES + 1);
    let mut table = vec![in rt.alloc(); BLANK_ENTRY; asked]?;
    let making = Book::new(&mut table, &overrides);
    say(rt, "book", told_book(&making, places))?;
    match making {
        Ok(book) => {
            let mut link = Link::new(book);
            play_on(rt, input, session, &mut link)?;
            for e in link.below().entries() {
                println!(rt; "{e}")?;
            }
            Ok(())
        }
        Err(refused) => play_on(rt, input, session, &mut Link::new(refused)),
    }
}

// Says on standard error why a run ends early, and at which line.
fn explain(rt: &impl Eprint, stop: Stop, number: u64) {
    let _ = match stop {
        Stop::Line(wrong) => eprintln!(rt; "line {number}: {wrong}"),
        Stop::Input => eprintln!(rt; "line {number}: the input cannot be read"),
        Stop::Output => eprintln!(rt; "the output cannot be written"),
        Stop::Memory => eprintln!(rt; "no memory"),
    };
}

// Runs the call list on standard input, and says on standard error what is wrong where it ends early. No slip is left.
pub fn replay(rt: &HostRuntime) -> Result<(), Stop> {
    let (result, number) = match Input::new(rt.alloc(), rt.stdin()) {
        Ok(mut input) => (run(rt, &mut input), input.number),
        // no line was read, and want of memory is told without a number
        Err(_) => (Err(Stop::Memory), 0),
    };
    if let Err(stop) = result {
        explain(rt, stop, number);
    }
    result
}
