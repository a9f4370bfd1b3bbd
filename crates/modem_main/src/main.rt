//! The program.
#![tactic(auto)]

use modem_cli::program;
use std::process::ExitCode;

fn main(rt: HostRuntime) -> ExitCode {
    program(rt)
}
