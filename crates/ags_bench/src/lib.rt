//! The bench's one call: a certified program is run with devices at its registers. The source, the certificate and the script are
//! loaded along the walk of `ags_plan`, the certificate is judged by `ags_played`, and where it is certified `ags_benchjudged` has the
//! script driven with the devices that were handed in. `bench_main` answers exactly what the definitions in `specs/` say of the words,
//! the files and the devices (docs/BENCH.md). Its statuses are those of `ags_program`: `Done` where the script was driven to its end;
//! `No` where the certificate is refused by its verdict, or the run meets a start or a word that the certificate doesn't declare, a
//! number that no device has, or a device that feeds no register; `BadText` where the script has a fault.
#![tactic(auto)]

mod files;
mod loader;
mod loading;
mod main_call;
mod refusal;
mod scripts;
mod words;
mod works;

pub use ags_benchscript::{BenchCommand, BenchScript, read};
pub use ags_drive::{DriveError, Driven, drive};
pub use ags_program::Status;
pub use main_call::bench_main;
