// A short session, for programs that show it on a charging function of their own: converged, charging id 7, a line, two usage
// reports around a tariff change, and the end.
#![tactic(auto)]

ghost use Rattle.std.specs.Prelude.{◌≡◌, ℕ, Ok, IfOk};
ghost use Rattle.session.specs.Slips.{Spendable};
ghost use Rattle.session.specs.Steps.{as_made};
ghost use Rattle.session.specs.View.{view};
ghost use Rattle.entries.specs.Columns.{converged};
ghost use Rattle.sample.specs.Short.{short_making, Counted, Charged, given_up};

use anyhow::{Result, bail, ensure};
use entries::key::*;
use entries::method::*;
use entries::taker::*;
use entries::trigger::*;
use session::answer::*;
use session::session::*;
use session::slip::Slip;
use session::thresholds::*;
use std::alloc::Global;

const CHARGING_ID: u32 = 7;

// The key of the line.
pub const KEY: ServiceKey = ServiceKey {
    rating_group: 10,
    service_id: None,
};

// An answer that closed so many containers and reported nothing.
fn expect(answer: Reported, closed: usize) -> Result<()> {
    ensure!(
        answer.closed == closed && answer.due == Due::Nothing,
        "another answer than expected"
    );
    Ok(())
}

// The calls between opening and finish, where the opening met no profile. They leave the slip as it is.
fn count<F: Taker>(session: &mut Session<Converged>, opened: Opened, function: &mut F) -> Result<()>
    ensures kept { (slip : ℕ) → Spendable (view session.old.ledger) slip 140 → Spendable (view session.new.ledger) slip 140 }
    ensures counted { IfOk result (λ _. Counted (view session.old.ledger) (view session.new.ledger) (F.Taker.book function.old) (F.Taker.book function.new)) }
{
    ensure!(
        opened.applied == 0 && opened.passed == 0,
        "a profile was applied"
    );
    expect(session.start(KEY, 100, function)?, 0)?;
    expect(session.usage(KEY, 500, 1500, 110, function)?, 0)?;
    expect(
        session.change(Trigger::TariffTime.number(), 120, function)?,
        1,
    )?;
    expect(session.usage(KEY, 200, 0, 130, function)?, 0)
}

// Gives the slip back where the session cannot be finished; it stays with the caller where not even a shelving takes it.
pub fn give_up(session: &mut Session<Converged>, slip: Slip) -> Result<(), Slip>
    ensures taken { Spendable (view session.old.ledger) slip.id 140 → result ≡ Ok tt }
    ensures after { view session.new.ledger ≡ (given_up (view session.old.ledger) slip.id).state }
{
    match session.shelve(140, slip) {
        Ok(_) => Ok(()),
        Err((_, slip)) => Err(slip),
    }
}

// Gives the slip of a session back that is open until the end.
fn put_back(session: &mut Session<Converged>, slip: Slip)
    requires { Spendable (view session.old.ledger) slip.id 140 }
{
    match give_up(session, slip) {
        Ok(()) => {}
        Err(_) => unreachable!(),
    }
}

// The session from its opening to its end. An error leaves no slip behind.
pub fn charge<F: ChargingFunction>(session: &mut Session<Converged>, function: &mut F) -> Result<()>
    ensures { IfOk result (λ _. Charged (view session.old.ledger) (view session.new.ledger) (F.Taker.room function.old) (F.ChargingFunction.profile function.old) (F.Taker.book function.old) (F.Taker.book function.new)) }
{
    let (opened, slip) = session.open(100, function)?;
    if let Err(why) = count(session, opened, function) {
        put_back(session, slip);
        return Err(why);
    }
    match session.finish(Trigger::SessionEnd.number(), 140, slip, function) {
        Ok(2) => Ok(()),
        Ok(_) => bail!("another number of containers than expected"),
        Err((why, slip)) => {
            put_back(session, slip);
            Err(why.into())
        }
    }
}

pub fn make_session(heap: Global) -> Result<Session<Converged>>
    ensures { IfOk result (λ s. view s.ledger ≡ as_made converged short_making) }
{
    Ok(Session::new(heap, Converged, CHARGING_ID, NO_LIMITS)?)
}
