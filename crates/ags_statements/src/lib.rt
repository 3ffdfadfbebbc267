//! The reader of a text whose first line is a name and a version and whose further lines are statements (docs/CERTIFICATE.md,
//! Lines). Each statement is handed, in order, to what gathers them, which takes it or tells its fault; the answer is what was
//! gathered of a text without a fault, or the first faulty line. It stands on `ags_frame` for what the lines are, and on
//! `ags_text` for the lines.
#![tactic(auto)]

mod counts;
mod gathers;
mod laws;
mod reading;

pub use counts::read_count;
pub use gathers::{Gathers, Untaken};
pub use laws::text_of_statements_has_one_meaning;
pub use reading::{TextError, read_text};
