//! The text of a certificate (docs/CERTIFICATE.md): what each line states, which text is a certificate for a machine's
//! registers, and which fault is a text's first. `read_first_line`, and `read_line` of `CertLines`, tell what a line is exactly as
//! `specs/Spelling` has it: a line has one reading. It stands on `ags_frame` for what a certificate shares with other texts, on
//! `ags_text` for fields and digits, on `ags_domain` for values, and on `ags_certtype` for certificates.
#![tactic(auto)]

mod cert_error;
mod ends;
mod flags;
mod forms;
mod keywords;
mod kinds;
mod laws;
mod lines;
mod numbers;
mod operands;
mod signed;
mod statements;
mod values;
mod word_fields;

pub use cert_error::{CertError, CertKind};
pub use kinds::{Kind, Table};
pub use laws::{
    first_line_has_one_reading, least_fault_is_told, line_has_one_reading,
    row_fields_have_one_reading, spelled_statements_are_lawful,
};
pub use lines::{CertLines, read_first_line};
pub use numbers::{read_address, read_word};
pub use operands::read_row;
pub use signed::read_signed;
pub use statements::{Entry, RowLine, Statement};
pub use values::read_value;
