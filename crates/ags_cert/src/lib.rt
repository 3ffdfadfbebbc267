//! Certificates under one path (docs/CERTIFICATE.md): `Cert`, its reader `read`, the same for pieces, `CertReader`, its writer
//! `send_cert`, and what a text that is none is told as. The work stands in four crates below, so that each is proved beside the others: `ags_certtype` has
//! the type, `ags_certtext` what a line states, `ags_certread` the reader and `ags_certsend` the writer. Here stands
//! the reader of one value at a position of a line, `read_value`; the definitions that the contracts of the others cite are handed on in `specs/`.
#![tactic(auto)]

mod values;

pub use ags_certread::{
    CERT_LIMIT, CertReader, first_version_has_no_links, read, read_certificates_suit,
    text_has_one_meaning,
};
pub use ags_certsend::{send_cert, sent_certificate_reads_back, sent_lines_are_read};
pub use ags_certtext::{CertError, CertKind};
pub use ags_certtype::laws::numbers_are_of_the_rows_at_a_location;
pub use ags_certtype::{Cert, CertParts, EditError, MOST_ROWS, MOST_ROWS_AT_ONE};
pub use values::read_value;

// No clause can name a constant, so the number of each that is handed out is proved here.
const _: () = prove!(CERT_LIMIT == 67_108_864);

const _: () = prove!(MOST_ROWS == 20_000);

const _: () = prove!(MOST_ROWS_AT_ONE == 512);
