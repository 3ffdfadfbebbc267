//! Edits of a program's image and its certificate, and their text (docs/EDITS.md). `read` answers exactly what the definitions in
//! `specs/` say of a text: the edits that its lines state, or its first fault. It stands on `ags_statements` for the reading of such a
//! text, on `ags_certtext` for the lines that certificates have too, and on `ags_certread` for the cells of a row.
#![tactic(auto)]

mod edits;
mod edits_errors;
mod gatherers;
mod keywords;
pub mod laws;
mod lines;
mod reading;
mod rows;
mod statements;

pub use edits::Edit;
pub use edits_errors::{EditsError, EditsKind};
pub use reading::{EDITS_LIMIT, MOST_EDITS, read};
pub use statements::{EditLine, RowEdit, WordEdit};

// No clause can name a constant, so the number of each that is handed out is proved here.
const _: () = prove!(EDITS_LIMIT == 4_194_304);

const _: () = prove!(MOST_EDITS == 10_000);
