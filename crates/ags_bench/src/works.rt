//! What is loaded for a command line, and then done.

use ags_benchscript::BenchScript;
use ags_program::ReadPair;

/// What is loaded for a command line.
#[derive(Drop)]
pub(crate) enum Work {
    /// The words are none of the forms.
    NoForm,
    /// A certificate is judged for a source's words, and a script is driven on them.
    DrivePair {
        /// The source and the certificate.
        pair: ReadPair,
        /// The script.
        script: BenchScript,
    },
}
