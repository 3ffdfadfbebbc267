//! What of a start is outside.

use ags_word::Word;

/// What a certificate doesn't declare of the start of a script: the first of these, cells by their addresses, and input registers
/// in the order of the machine's table.
#[derive(Clone, Copy)]
pub enum Outside {
    /// The location that the script starts at is another than the certificate's.
    Place {
        /// The script's.
        script: u16,
        /// The certificate's.
        cert: u16,
    },
    /// An erasable cell begins with a word that is neither its assembled one, nor in its INIT, nor 0 where it has neither.
    Cell {
        /// The cell's address.
        address: u16,
        /// The word.
        word: Word,
    },
    /// An input register begins with a word outside its range.
    Port {
        /// The register's address.
        address: u16,
        /// The word.
        word: Word,
    },
}
