//! Why a bench script isn't run to its end.

use ags_run::Outside;
use ags_word::Word;

/// Why a bench script wasn't run to its end.
#[derive(Clone, Copy)]
pub enum DriveError {
    /// The output failed in this call.
    WriteFault,
    /// The certificate doesn't declare the start, and nothing was run.
    StartOutside(Outside),
    /// The certificate doesn't declare a word that a device gave to be put, and it wasn't put.
    InputRange {
        /// The input register's address.
        address: u16,
        /// The word.
        word: Word,
    },
    /// FEED or DETACH names a number that no device present has.
    NoDevice {
        /// The line's number.
        line: u32,
        /// The device's.
        device: u32,
    },
    /// FEED names a device that feeds no input register of the machine.
    NoFeed {
        /// The line's number.
        line: u32,
        /// The device's.
        device: u32,
    },
    /// The memory didn't suffice.
    NoMemory,
}
