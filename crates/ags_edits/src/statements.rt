//! What the lines of a text of edits state.

use ags_certtext::{Entry, RowLine};
use ags_row::Link;
use ags_word::Word;

/// What the line of a word's edit states.
#[derive(Clone, Copy)]
pub struct WordEdit {
    /// The location, below 4096.
    pub location: u16,
    /// Its new word.
    pub word: Word,
}

/// What the line of a row's edit states.
#[derive(Clone, Copy)]
pub struct RowEdit {
    /// The number of the row that is replaced; the first row of the certificate is 1.
    pub row: u32,
    /// The new row, without its cells and its link.
    pub new: RowLine,
}

/// What a line states.
#[derive(Clone, Copy)]
pub enum EditLine {
    /// That a location has another word.
    Word(WordEdit),
    /// That a cell has another limit.
    Cell(Entry),
    /// That a row is replaced.
    Row(RowEdit),
    /// What a cell may hold in the row above.
    At(Entry),
    /// The link of A to a cell in the row above.
    Linked(Link),
    /// That the text ends.
    End,
}
