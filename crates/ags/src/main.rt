//! The program `ags`: a process over real files and standard output.
#![tactic(auto)]

use ags_process::exit_number;
use std::env::args;
use std::process::ExitCode;

fn main(rt: HostRuntime) -> ExitCode {
    ExitCode::from(exit_number(&rt, args(&rt), args(&rt)))
}
