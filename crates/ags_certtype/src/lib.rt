//! Certificates: what a person states of a program, so that it can be checked one order at a time
//! (docs/CERTIFICATE.md). A `Cert` is valid by its type: what is stated of a cell is within the cell's limit, and there
//! are neither too many rows nor too many at one location. Its rows are found by location. It stands on `ags_row` for
//! rows and limits, and on `ags_safe` for what a certificate promises. The readers take no memory.
#![tactic(auto)]

mod certs;
mod checks;
mod edit_errors;
mod edits;
mod indexes;
pub mod laws;

pub use certs::{Cert, CertParts, MOST_ROWS, MOST_ROWS_AT_ONE};
pub use edit_errors::EditError;

// No clause can name a constant, so the number of each that is handed out is proved here.
const _: () = prove!(MOST_ROWS == 20_000);

const _: () = prove!(MOST_ROWS_AT_ONE == 512);
