// A short session on a book. Prints the book.
#![tactic(auto)]

use anyhow::Result;
use entries::book::*;
use entries::entry::*;
use sample::*;
use std::process::ExitCode;

// The places of the book, more than the session needs.
const PLACES: usize = 8;

fn run(rt: &HostRuntime) -> Result<()> {
    let mut session = make_session(rt.alloc())?;
    let mut table = [BLANK_ENTRY; PLACES];
    let mut book = Book::new(&mut table, &[])?;
    charge(&mut session, &mut book)?;
    for e in book.entries() {
        println!(rt; "{e}")?;
    }
    Ok(())
}

fn main(rt: HostRuntime) -> ExitCode {
    run(&rt).map_or(ExitCode::FAILURE, |()| ExitCode::SUCCESS)
}
