//! Bench scripts: what is done with a machine and the devices at its registers, line by line, and what is shown of them.
//! `read` answers exactly what the definitions in `specs/` say of a bench script's text for a machine: its commands, each with
//! its line's number, or its first fault (docs/BENCH.md). The lines that other scripts have too are those of `ags_script`,
//! which it stands on, as on `ags_text` for lines and fields and on `ags_ports` for the machine's registers.
#![tactic(auto)]

mod commands;
pub mod laws;
mod reader;
mod scripts;
mod verbs;

pub use commands::BenchCommand;
pub use scripts::{BenchScript, read};
