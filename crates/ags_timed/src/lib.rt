//! Timed runs of the machine: steps until the time of the orders that ran reaches a limit, as a cycle of the timer
//! goes. It stands on `ags_core` for the steps and on `ags_ports` for the definition of runs and of order times.
//! `run_for` is the least such run, told step by step to a watcher, and `run_steps` makes so many steps whatever their
//! time; `laws` says that from each state there is exactly one. No call takes memory.
#![tactic(auto)]

pub mod laws;
mod timed_runs;
mod watchers;

pub use timed_runs::{CYCLE_MICROS, run_for, run_steps};
pub use watchers::Watcher;

// No clause can name a constant, so the number of each that is handed out is proved here.
const _: () = prove!(CYCLE_MICROS == 20_000);
