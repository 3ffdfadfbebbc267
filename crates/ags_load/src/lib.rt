//! The workload: a program of any size from 1 to 400 calls of one subroutine, and the certificate that it is safe
//! (docs/WORKLOAD.md). It stands on `ags_text` and `ags_word` for digits, and promises each text line by line, as
//! `specs/Workload` has it, and that each is within the limit of its kind.
#![tactic(auto)]

mod certificates;
mod laws;
mod lines;
mod sources;

pub use certificates::cert;
pub use laws::{cert_is_within_its_limit, source_is_within_its_limit};
pub use sources::source;
