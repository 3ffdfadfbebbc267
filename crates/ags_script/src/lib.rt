//! Scripts: what is done with the machine and its panel, line by line, and what is shown of them. `read` answers exactly
//! what the definitions in `specs/` say of a script's text for a machine: its commands, or its first fault
//! (docs/SCRIPT.md). It stands on `ags_text` for lines, fields and digits, on `ags_ports` for the machine's registers, on
//! `ags_deda` for keys, and on `ags_word`.
#![tactic(auto)]

mod commands;
mod counting;
mod keys;
pub mod laws;
mod lines;
mod numbers;
mod operands;
mod reader;
mod script_errors;
mod scripts;
mod verb_commands;
mod verbs;

pub use commands::Command;
pub use counting::{CYCLE_STEPS, STEP_LIMIT, lacks_port, step_count};
pub use lines::{is_skipped_line, line_command};
pub use operands::count_operand;
pub use script_errors::{ScriptError, ScriptKind};
pub use scripts::{SCRIPT_LIMIT, Script, read};

// No clause can name a constant, so the number of each that is handed out is proved here.
const _: () = prove!(SCRIPT_LIMIT == 4_194_304);

const _: () = prove!(STEP_LIMIT == 100_000_000);

const _: () = prove!(CYCLE_STEPS == 20_000);
