//! What the lines of a certificate state.

use crate::kinds::Table;
use ags_domain::Value;
use ags_row::Link;

/// An address and the value after it.
#[derive(Clone, Copy, PartialEq, Eq)]
pub struct Entry {
    /// The address, below 4096.
    pub address: u16,
    /// The value; nothing where it is a range whose least is above its greatest.
    pub value: Option<Value>,
}

/// What the line of a row states.
#[derive(Clone, Copy, PartialEq, Eq)]
pub struct RowLine {
    /// The location, below 4096.
    pub location: u16,
    /// The words that A may hold; nothing where they are a range whose least is above its greatest.
    pub a: Option<Value>,
    /// The words that Q may hold; nothing where they are a range whose least is above its greatest.
    pub q: Option<Value>,
    /// For each value of the index register whether it may stand.
    pub x: [bool; 8],
    /// Whether the indicator may be clear, and whether it may be set.
    pub v: [bool; 2],
}

/// What a line states.
#[derive(Clone, Copy, PartialEq, Eq)]
pub enum Statement {
    /// The location that a run starts at.
    Start(u16),
    /// An entry of a table.
    Entry(Table, Entry),
    /// A location where an overflow is expected.
    May(u16),
    /// A row.
    Row(RowLine),
    /// The link of A to a cell in the row above.
    Linked(Link),
    /// The end of the certificate.
    End,
}
