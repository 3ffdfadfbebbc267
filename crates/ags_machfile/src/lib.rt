//! Machine files: one TOML document that replaces the standard machine's codes, times and registers (docs/MACHINE.md,
//! Machine files). The bytes are read by the kit's `toml` alone; the tests on the document are this crate's. It stands on
//! `ags_ports` for what a machine is and on `ags_isa` for the orders. `read` is exactly the definition `machine_of`: the
//! machine that the file gives, or the first test that it fails.
#![tactic(auto)]

mod code_tables;
mod keys;
pub mod laws;
mod mach_error;
mod port_tables;
mod reading;
mod time_tables;
mod values;

pub use keys::Key;
pub use mach_error::MachError;
pub use reading::{MACHINE_LIMIT, read};

// No clause can name a constant, so the number of each that is handed out is proved here.
const _: () = prove!(MACHINE_LIMIT == 65_536);
