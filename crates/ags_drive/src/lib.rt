//! The run of a bench script on a machine with devices at its registers, under a certificate. `Bench`, `Act`, `Doing`, `Played`,
//! `BenchRun` and `Driven` of specs/ say what it is, in states, events, single steps of the machine, and the records of the devices;
//! `laws` says that the events of a bench run are one run of its certificate, and safe where the certificate is, that each script has
//! one bench run, on which each of its points lies, and how many steps and puts there are. `drive` makes those events, prints their
//! text and lets the devices give and hear. It stands on `ags_benchscript` for commands, on `ags_device` for devices, on `ags_core`,
//! `ags_timed`, `ags_ports` and `ags_image` for the machine, on `ags_certtype`, `ags_safe` and `ags_domain` for what a certificate
//! declares and promises, on `ags_run` and `ags_play` for words that are put, what is outside and what is shown, on `ags_outside` for
//! the output, and on `ags_text` and `ags_word` for digits.
#![tactic(auto)]

mod benches;
mod commands;
mod cycling;
mod device_lines;
mod drive_error;
mod driving;
mod feeding;
mod hearing;
pub mod laws;
mod leaving;
mod listeners;
mod script_run;
mod showing;
mod starting;
mod stepping;

pub use drive_error::DriveError;
pub use driving::{Driven, drive};
