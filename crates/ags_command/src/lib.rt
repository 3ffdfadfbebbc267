//! The forms of a command line: which command its arguments ask for, and on the machine of which file, or the workload of
//! which size. It stands on `ags_text` for decimal digits, and says nothing of what a command reads or does.
#![tactic(auto)]

mod asking;
mod command_lines;
mod laws;
mod source_texts;

pub use asking::{Asked, read_asked};
pub use command_lines::{Command, CommandLine, read_line};
pub use laws::{arguments_ask_for_one_command, arguments_ask_for_one_thing};
pub use source_texts::SourceText;
