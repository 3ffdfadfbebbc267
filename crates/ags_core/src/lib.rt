//! The core: it holds the machine's registers, ports and cells, and runs it. It stands on `ags_ports` for what the
//! machine is and what each event does, on `ags_isa` for reading orders, on `ags_word` for the arithmetic, and on
//! `ags_image` for what the cells begin with. Each call of `act` is one step of the definition in `ags_ports`, for
//! every event, and only `new` takes memory. `laws` says what the state that it begins in means.
#![tactic(auto)]

mod acting;
mod cores;
mod exchanges;
pub mod laws;
mod loads;
mod obeying;
mod order_reports;
mod pairs;
mod sums;
mod transfers;

pub use ags_ports::{Done, Event, Phase, Stored};
pub use cores::Core;
