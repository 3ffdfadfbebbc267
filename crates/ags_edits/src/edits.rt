//! Edits.

use ags_domain::Value;
use ags_row::{At, Row};
use ags_word::Word;

/// An edit of a program's image and its certificate (docs/EDITS.md).
#[derive(Drop)]
pub enum Edit {
    /// A location has another word.
    Word {
        /// The location, below 4096.
        location: u16,
        /// The word.
        word: Word,
    },
    /// An erasable cell has another limit.
    Limit(At<Value>),
    /// Another row stands in the place of one.
    Row {
        /// Its number, from 1.
        row: u32,
        /// The new row.
        new: Row<Value>,
    },
}
