//! The texts that are made of a source.

/// A text that is made of a source (docs/SOURCE.md).
#[derive(Clone, Copy)]
pub enum SourceText {
    /// The listing of its cards.
    Listing,
    /// The tape of its words.
    Tape,
    /// The cross reference of its symbols.
    CrossReference,
}
