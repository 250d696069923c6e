// Counts usage reports on a session, to measure what a report costs that closes nothing: so many lines, so many reports, from
// the arguments. Prints how many reports were accepted.
#![tactic(auto)]

ghost use Rattle.std.specs.Prelude.{ℕ};
ghost use Rattle.session.specs.Slips.{Spendable};
ghost use Rattle.session.specs.View.{view};

use anyhow::{Context, Result};
use entries::book::*;
use entries::entry::*;
use entries::key::*;
use entries::method::*;
use entries::taker::*;
use entries::trigger::*;
use sample::*;
use session::session::*;
use std::env;
use std::process::ExitCode;

// The book takes the Initial and the Termination with a container for each line.
const PLACES: usize = 64;

// So many lines and reports.
#[derive(Clone, Copy)]
struct Load {
    lines: u32,
    reports: u64,
}

// The load from the arguments: 1 to 32 lines, else none; a second word that is no number asks for no report.
fn read_load(rt: &HostRuntime) -> Option<Load> {
    let mut words = env::args(rt).ok()?.skip(1);
    let lines = words.next().map_or(Some(8), |word| word.parse().ok())?;
    let reports = words.next().map_or(1000, |word| word.parse().unwrap_or(0));
    let load = Load { lines, reports };
    (1..=32).contains(&lines).then_some(load)
}

fn line_key(n: u32) -> ServiceKey {
    ServiceKey {
        rating_group: n,
        service_id: None,
    }
}

// Starts the lines. The slip stays as it is.
fn start_lines<T: Taker>(session: &mut Session<Converged>, load: &Load, taker: &mut T)
    ensures { (slip : ℕ) → Spendable (view session.old.ledger) slip 140 → Spendable (view session.new.ledger) slip 140 }
{
    for n in 0..load.lines {
        let _ = session.start(line_key(n), 1, taker);
    }
}

// Counts the reports on the lines in turn; how many were accepted. The slip stays as it is.
fn count_reports<T: Taker>(session: &mut Session<Converged>, load: &Load, taker: &mut T) -> u64
    ensures { (slip : ℕ) → Spendable (view session.old.ledger) slip 140 → Spendable (view session.new.ledger) slip 140 }
{
    let mut accepted: u64 = 0;
    for (_, n) in (0..load.reports).zip((0..load.lines).cycle()) {
        let is_accepted = session.usage(line_key(n), 1, 2, 2, taker).is_ok();
        accepted = accepted.wrapping_add(u64::from(is_accepted));
    }
    accepted
}

fn run(rt: &HostRuntime) -> Result<()> {
    let load = read_load(rt).context("lines and reports")?;
    let mut session = make_session(rt.alloc())?;
    let mut table = [BLANK_ENTRY; PLACES];
    let mut book = Book::new(&mut table, &[])?;
    let (_, slip) = session.open(1, &mut book)?;
    start_lines(&mut session, &load, &mut book);
    let accepted = count_reports(&mut session, &load, &mut book);
    if let Err((why, slip)) = session.finish(Trigger::SessionEnd.number(), 3, slip, &mut book) {
        return match give_up(&mut session, slip) {
            Ok(()) => Err(why.into()),
            Err(_) => unreachable!(),
        };
    }
    println!(rt; "{accepted} reports")?;
    Ok(())
}

fn main(rt: HostRuntime) -> ExitCode {
    run(&rt).map_or(ExitCode::FAILURE, |()| ExitCode::SUCCESS)
}
