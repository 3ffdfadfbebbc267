//! Why a script isn't played to its end.

use crate::outside::Outside;
use ags_word::Word;

/// Why a script wasn't played to its end.
#[derive(Clone, Copy)]
pub enum PlayError {
    /// The output failed in this call.
    WriteFault,
    /// The certificate doesn't declare the start, and nothing was played.
    StartOutside(Outside),
    /// The certificate doesn't declare a word that was to be put, and it wasn't.
    InputRange {
        /// The input register's address.
        address: u16,
        /// The word.
        word: Word,
    },
    /// The memory didn't suffice.
    NoMemory,
}
