//! The machine: its tables of times and registers, and the definition of what it does. `specs/` says what a state is,
//! what each order does, one step and a run; the types of events and of what a step tells stand here. The core runs
//! that definition. It stands on `ags_word` for words and on `ags_isa` for orders.
//! A table is valid by its type. `laws` says what the definition means, `run_laws` what runs of it do, and `time_laws`
//! how long its steps take. No call takes memory.
#![tactic(auto)]

mod addressing;
mod events;
pub mod exact_laws;
pub mod laws;
mod machines;
mod registers;
pub mod run_laws;
pub mod time_laws;
mod time_tables;

pub use addressing::effective_address;
pub use events::{Done, Event, Phase, Stored};
pub use machines::Machine;
pub use registers::{MOST_REGISTERS, Port, Ports, has_register};
pub use time_tables::Times;

// No clause can name a constant, so the number of each that is handed out is proved here.
const _: () = prove!(MOST_REGISTERS == 32);
