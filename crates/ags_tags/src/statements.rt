//! What the lines of a text of scales state.

use crate::tags::RowTags;

/// What a line names by its address.
#[derive(Clone, Copy)]
pub enum Table {
    /// A cell.
    Cell,
    /// An input register.
    In,
    /// An output register.
    Out,
}

/// The scale of a cell or a register.
#[derive(Clone, Copy)]
pub struct Entry {
    /// Its address.
    pub address: u16,
    /// Its scale.
    pub scale: i8,
}

/// The tags of a row.
#[derive(Clone, Copy)]
pub struct RowEntry {
    /// The row's number; the first row of the certificate is 1.
    pub row: u32,
    /// Its tags.
    pub tags: RowTags,
}

/// What a line states.
#[derive(Clone, Copy)]
pub enum ScaleLine {
    /// The scale of a cell or a register.
    Scaled(Table, Entry),
    /// The tags of a row.
    Tagged(RowEntry),
    /// That the text ends.
    End,
}
