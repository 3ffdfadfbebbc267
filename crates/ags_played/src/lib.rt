//! The commands that play a script, `run` and `guard`, and the verdict of a certificate with its line and its status, which `guard` says
//! before it plays, as every command does that judges. What is played is played by `ags_run`, and judged by `ags_check`; what each
//! command says is defined by the works of `ags_program`.
#![tactic(auto)]

mod guard_command;
mod run_command;
mod verdicts;

pub use guard_command::guard_script;
pub use run_command::play_script;
pub use verdicts::{verdict_line, verdict_of, verdict_status};
