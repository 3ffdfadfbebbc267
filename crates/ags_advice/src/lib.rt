//! What standard error says to a person of a run that wasn't answered as asked: the file, the line of it, what is wrong there,
//! and what would be right. It is a function of how the run ended and of the last line of its output, and has one row for each
//! kind of fault; standard output has the defined bytes and nothing else. It stands on `ags_text` for the number of a line, and on `ags_edge` for what was seen of
//! real files and of standard output.
#![tactic(auto)]

mod advice;
mod endings;
mod findings;
mod headings;
mod hints;
mod lines;
mod programs;
mod reasons;
mod telling;

pub use advice::Advice;
pub use endings::Seen;
pub use programs::Program;
pub use telling::{Ended, tell};
