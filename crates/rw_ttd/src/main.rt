//! The program `ttd`: it runs `rw_program`, whose contracts state what it does, on its words, files and streams, and exits with
//! the status that is returned there.
//! What stands on it: nothing: it is the program.
#![tactic(auto)]

use std::process::ExitCode;

fn main(rt: HostRuntime) -> ExitCode {
    ExitCode::from(rw_program::run(&rt, &mut rt.stderr()))
}
