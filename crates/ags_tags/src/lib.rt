//! Scale tags: the scale of a word, and texts of scales, which declare the tags of cells, registers and rows (docs/SCALES.md). `read`
//! answers exactly what the definitions in `specs/` say of a text for a machine's registers and so many rows: its scales, or its first
//! fault. It stands on `ags_statements` for the reading of such a text, on `ags_frame` for its lines, on `ags_text` for fields and
//! digits, on `ags_certtext` for addresses and signed numbers, and on `ags_ports` for registers.
#![tactic(auto)]

mod gatherers;
mod keywords;
pub mod laws;
mod lines;
mod numbers;
mod reading;
mod registers;
mod scale_errors;
mod statements;
mod tables;
mod tags;

pub use reading::{SCALES_LIMIT, read};
pub use scale_errors::{ScaleError, ScaleKind};
pub use statements::{Entry, RowEntry, ScaleLine, Table};
pub use tables::Scales;
pub use tags::{RowTag, RowTags, Tag};

// No clause can name a constant, so the number of each that is handed out is proved here.
const _: () = prove!(SCALES_LIMIT == 4_194_304);
