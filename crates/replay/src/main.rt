// Replays a list of calls from standard input on a session, and prints what each call answered, then the book.
#![tactic(auto)]

use calllist::run::replay;
use std::process::ExitCode;

fn main(rt: HostRuntime) -> ExitCode {
    replay(&rt).map_or(ExitCode::FAILURE, |()| ExitCode::SUCCESS)
}
