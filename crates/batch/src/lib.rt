// A list of starts and usage reports on a session. The crate batch_c offers it to programs that are not written in Rattle.
#![tactic(auto)]

ghost use Rattle.std.specs.Prelude.{◌≡◌, Bool, false};
ghost use Rattle.session.specs.declared.state.Phase.TheVariants.{Open as OpenPhase};
ghost use Rattle.session.specs.Steps.{accepted};
ghost use Rattle.session.specs.View.{view};
ghost use Rattle.batch.specs.Batch.{stepped, accepted_of, accepted_on, new_session};

use entries::book::*;
use entries::entry::*;
use entries::key::*;
use entries::link::*;
use entries::method::*;
use session::session::*;
use session::slip::Slip;
use session::thresholds::NO_LIMITS;
use std::alloc::Global;

const CHARGING_ID: u32 = 7;

// A usage report on the line of a rating group, or a start of that line; flat, as another language passes it.
#[repr(C)]
#[derive(Clone, Copy)]
pub struct Call {
    pub is_usage: bool,
    pub rating_group: u32,
    pub uplink: u32,
    pub downlink: u32,
    pub time: u32,
}

// Makes a call while the link is down, and answers whether it was accepted.
fn make_call(session: &mut Session<Converged>, link: &mut Link<Book>, call: &Call) -> bool
    requires { link.old.up ≡ false }
    ensures answer { result ≡ accepted (stepped (view session.old.ledger) call.now) }
    ensures after { view session.new.ledger ≡ (stepped (view session.old.ledger) call.now).state }
    ensures down { link.new.up ≡ false }
{
    let key = ServiceKey {
        rating_group: call.rating_group,
        service_id: None,
    };
    if call.is_usage {
        session
            .usage(key, call.uplink, call.downlink, call.time, link)
            .is_ok()
    } else {
        session.start(key, call.time, link).is_ok()
    }
}

// Makes the calls in their order, and answers how many of them were accepted. A session that is open stays so.
fn make_calls(session: &mut Session<Converged>, link: &mut Link<Book>, calls: &[Call]) -> u64
    requires down { link.old.up ≡ false }
    requires phase { session.old.ledger.marks.phase ≡ OpenPhase }
    ensures count { result ≡ accepted_of (view session.old.ledger) calls.now }
    ensures phase { session.new.ledger.marks.phase ≡ OpenPhase }
    ensures id { session.new.ledger.id ≡ session.old.ledger.id }
{
    let mut accepted: u64 = 0;
    for call in calls {
        if make_call(session, link, call) {
            accepted += 1;
        }
    }
    accepted
}

// Gives the slip of an open session back.
fn give_back(session: &mut Session<Converged>, slip: Slip)
    requires phase { session.old.ledger.marks.phase ≡ OpenPhase }
    requires own { slip.id ≡ session.old.ledger.id }
{
    match session.shelve(session.last(), slip) {
        Ok(_) => {}
        Err(_) => unreachable!(),
    }
}

// Opens a session at 0 and makes the calls while its link is down, so that nothing is handed over. Answers how many of them
// were accepted; 0 where the opening is refused.
pub fn count_accepted(session: &mut Session<Converged>, calls: &[Call]) -> u64
    ensures { result ≡ accepted_on (view session.old.ledger) calls.now }
{
    let mut table = [BLANK_ENTRY; 1];
    let book = match Book::new(&mut table, &[]) {
        Ok(book) => book,
        Err(_) => unreachable!(),
    };
    let mut link = Link::new(book);
    let Ok((_, slip)) = session.open(0, &mut link) else {
        return 0;
    };
    link.set_up(false);
    let accepted = make_calls(session, &mut link, calls);
    give_back(session, slip);
    accepted
}

// The same on a new session; only whether there was memory for it is left open.
pub fn batch_accepted(heap: Global, calls: &[Call]) -> u64
    ensures { (memory : Bool) × (result ≡ accepted_on (new_session memory) calls.now) }
{
    match Session::new(heap, Converged, CHARGING_ID, NO_LIMITS) {
        Ok(mut session) => count_accepted(&mut session, calls),
        Err(_) => 0,
    }
}
