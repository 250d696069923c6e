// A short session on a journal over a link. Reads the journal back, and prints its entries and the
// octets of the line in each tariff period.
#![tactic(auto)]

use anyhow::Result;
use entries::entry::*;
use entries::link::*;
use entries::sum::*;
use journal::journal::*;
use journal::reader::*;
use sample::*;
use std::process::ExitCode;

// The bytes of the journal, more than the session needs.
const BYTES: usize = 512;

// The most entries that the program shows.
const MOST_SHOWN: usize = 8;

fn show_octets(rt: &impl Print, entries: &[Entry], period: u16) -> Result<()> {
    let octets = sum(entries, &KEY, period)?;
    let (up, down) = (octets.uplink.0, octets.downlink.0);
    println!(rt; "period {period}: {up} {down}")?;
    Ok(())
}

// Reads a journal back, and prints what it has.
fn read_back(rt: &impl Print, reader: &Reader) -> Result<()> {
    let mut table = [BLANK_ENTRY; MOST_SHOWN];
    for (place, e) in table.iter_mut().zip(reader.entries()) {
        *place = e;
    }
    let entries = &table[..reader.count().min(MOST_SHOWN)];
    for e in entries {
        println!(rt; "{e}")?;
    }
    show_octets(rt, entries, 0)?;
    show_octets(rt, entries, 1)
}

fn run(rt: &HostRuntime) -> Result<()> {
    let mut session = make_session(rt.alloc())?;
    let mut bytes = [0u8; BYTES];
    let mut link = Link::new(Journal::new(&mut bytes, &[])?);
    charge(&mut session, &mut link)?;
    read_back(rt, &link.below().reader()?)
}

fn main(rt: HostRuntime) -> ExitCode {
    run(&rt).map_or(ExitCode::FAILURE, |()| ExitCode::SUCCESS)
}
