// The program replay once more, for its stored run of makings that are refused: a program has one stored run.
#![tactic(auto)]

use calllist::run::replay;
use std::process::ExitCode;

fn main(rt: HostRuntime) -> ExitCode {
    replay(&rt).map_or(ExitCode::FAILURE, |()| ExitCode::SUCCESS)
}
