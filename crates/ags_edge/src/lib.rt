//! The trusted edge: real files as a shelf, and a writer as a sink. Both meet the traits of `ags_outside` and tell
//! nothing of what a file holds or of what was written; where std says what a file has left or what a writer holds, their
//! own clauses bear it out. A sink that holds back what it took is finished at the end of a run (`HeldSink`). It stands on
//! `ags_outside` alone.
#![tactic(auto)]

mod file_shelf;
mod held_sink;
mod out_sink;
mod reasons;

pub use file_shelf::FileShelf;
pub use held_sink::HeldSink;
pub use out_sink::OutSink;
