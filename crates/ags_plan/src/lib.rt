//! One walk for every command. A program's commands are values of one type; a command's plan (`specs/Plan.antt`) says
//! which file is wanted next, what the bytes so far ask for, and what is answered when a file is absent or too long.
//! `load_or_say` walks the plan of whatever command the arguments ask for, and either hands its work over or says why it
//! can't, and `run` does the work after that; their contracts say, once for all commands, what is printed, which status
//! the process leaves with and what each answer of the surroundings leads to. A program gives its own part by the traits
//! `Loader` and `Program`: its definitions, and for each what its own functions prove. By `send_line` works send
//! lines that were to be made. It stands on `ags_outside` for files and output.
#![tactic(auto)]

mod causes;
mod laws;
mod loading;
mod program;
mod running;
mod saying;
mod unloaded;

pub use causes::{Cause, Stop};
pub use laws::{
    command_lines_have_one_answer, content_decides, each_command_line_has_an_answer,
    plans_are_loaded_file_by_file, walks_lead_to_their_works,
};
pub use loading::{fetch_file, fetch_file_into};
pub use program::{Loader, Program};
pub use running::{do_work, load_or_say, run};
pub use saying::send_line;
pub use unloaded::Unloaded;
