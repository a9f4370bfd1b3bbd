//! The program again, which the gate starts with a trace that isn't the run's: it ends with the status of that answer.
#![tactic(auto)]

use modem_cli::program;
use std::process::ExitCode;

fn main(rt: HostRuntime) -> ExitCode {
    program(rt)
}
