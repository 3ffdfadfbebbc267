//! The frame of the texts whose first line is a name and a version (docs/CERTIFICATE.md, Lines): what the first line opens,
//! which further lines are skipped, that each other line makes one statement or none, the readings of a whole text, and the
//! faults that the frame alone decides. What a line states is the text's own: it tells that as `Statements`. The crate stands on
//! `ags_text` for lines, fields and digits.
#![tactic(auto)]

mod laws;
mod lines;
mod numbers;
mod openings;
mod statements;

pub use laws::{first_line_has_one_reading, line_has_one_reading};
pub use lines::{Line, read_line};
pub use numbers::read_size;
pub use openings::{Opening, read_opening};
pub use statements::Statements;
