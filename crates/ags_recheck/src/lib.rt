//! The book of a program and its certificate while they are edited (docs/EDITS.md): after each edit it tells the verdict
//! that a check from nothing would tell. After the edit of a row it takes at most the steps of the new row's cases and
//! of the rows that lead to its old or its new location. It keeps of each row what comes of it and the locations of its posts, in
//! room that it takes when it is made. It stands on `ags_check` for what is checked, on `ags_certtype` for edits of a
//! certificate, and on `ags_verdict` for which rows a row is judged by. `read`, which reads a text of edits, stands in
//! `ags_edits` and is handed on here.
#![tactic(auto)]

mod books;
mod items;
mod joining;
pub mod laws;
mod locations;
mod noting;
mod rejudging;
mod telling;

pub use ags_edits::{EDITS_LIMIT, Edit, EditsError, EditsKind, MOST_EDITS, read};
pub use books::Book;
pub use telling::Told;

// No clause can name a constant, so the number of each that is handed out is proved here.
const _: () = prove!(EDITS_LIMIT == 4_194_304);

const _: () = prove!(MOST_EDITS == 10_000);
