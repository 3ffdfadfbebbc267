//! The writer of certificates: the text of a certificate in hand, a line at a time (docs/CERTIFICATE.md, Written
//! certificates). It stands on `ags_certtext` for what a line states, on `ags_certtype` for certificates, and on
//! `ags_outside` for where the text is written to. What is written is the definition of `specs/CertText`, whole or a
//! front of it, and it reads back as the certificate.
#![tactic(auto)]

mod laws;
mod sections;
mod spelling;
mod writing;

pub use laws::{sent_certificate_reads_back, sent_lines_are_read};
pub use writing::send_cert;
