//! How far a reader of pieces is.

use ags_certtext::CertKind;

/// How far a reader of pieces is.
#[derive(Clone, Copy)]
pub(crate) enum State {
    /// No fault was found.
    Open,
    /// The first fault, however the text goes on.
    Told {
        /// The faulty line's number.
        line: u32,
        /// What is wrong with it.
        kind: CertKind,
    },
    /// Memory was wanting.
    Spent,
}
