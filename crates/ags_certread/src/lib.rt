//! The reader of certificates: from a certificate's text to the certificate that it states for a machine's registers,
//! or to its first fault (docs/CERTIFICATE.md). It stands on `ags_certtext` for what a line says and for the
//! definitions, on `ags_text` for the lines of a text, on `ags_outside` for takers and on `ags_certtype` for certificates.
//! `CertReader` takes a text in pieces and keeps none of it but the line that has begun; `read` is this reader given one piece.
//! Both answer exactly what the definitions say, but for want of memory.
#![tactic(auto)]

mod cert_readers;
mod certificates;
mod checks;
mod ended_lines;
mod faults;
mod gatherer;
mod laws;
mod limits;
mod lines_taken;
mod next_states;
mod open_rows;
mod order;
mod reading;
mod reading_pieces;
mod states;
mod tables;

pub use cert_readers::CertReader;
pub use laws::{first_version_has_no_links, read_certificates_suit, text_has_one_meaning};
pub use open_rows::{add_cell, has_cell};
pub use reading::{CERT_LIMIT, read};

// No clause can name a constant, so the number of each that is handed out is proved here.
const _: () = prove!(CERT_LIMIT == 67_108_864);
