//! What is answered of a certificate.

use ags_domain::Operands;
use ags_safe::Stop;
use ags_word::Word;

/// What fails first in one row.
#[derive(Drop)]
pub enum RowFault<D> {
    /// The words at the row's location are more than 16.
    CodeUnknown,
    /// The checker stops at a case with a word.
    Stops {
        /// The word.
        word: Word,
        /// Why it stops.
        stop: Stop<D>,
    },
    /// No one row covers a post of a case.
    NotCovered {
        /// The case's word.
        word: Word,
        /// The case's index.
        x: u8,
        /// The case's indicator.
        v: bool,
        /// The post's location.
        next: u16,
    },
}

/// The first item that fails of what is checked. Rows are numbered from 1, in the order of the certificate.
#[derive(Drop)]
pub enum Refusal<D> {
    /// An erasable cell's first word is not one of the cell's limit: the image's word, or 0 where nothing is stated of the start.
    InitRange {
        /// The cell's address.
        address: u16,
        /// The first word.
        word: Word,
    },
    /// No one row at the start holds all that may stand there.
    StartUncovered,
    /// The words at the row's location are more than 16.
    CodeUnknown {
        /// The row.
        row: u32,
    },
    /// The word is no order.
    NoOrder {
        /// The row.
        row: u32,
        /// The word.
        word: Word,
    },
    /// INP names no input register, or OUT names no output register.
    BadPort {
        /// The row.
        row: u32,
        /// The order's word.
        word: Word,
    },
    /// An order stores to a fixed cell.
    FixedWrite {
        /// The row.
        row: u32,
        /// The order's word.
        word: Word,
        /// The cell's address.
        address: u16,
    },
    /// Some operands overflow, and the location is not named as a place of an overflow.
    MayOverflow {
        /// The row.
        row: u32,
        /// The order's word.
        word: Word,
        /// Operands that overflow.
        operands: Operands,
    },
    /// What is stored may be outside the cell's limit.
    CellRange {
        /// The row.
        row: u32,
        /// The order's word.
        word: Word,
        /// The cell's address.
        address: u16,
        /// What is stored.
        value: D,
    },
    /// What is given may be outside the output register's limit.
    OutputRange {
        /// The row.
        row: u32,
        /// The order's word.
        word: Word,
        /// The register's address.
        address: u16,
        /// What is given.
        value: D,
    },
    /// No one row covers a post.
    NotCovered {
        /// The row.
        row: u32,
        /// The order's word.
        word: Word,
        /// The index before the order.
        x: u8,
        /// The indicator before the order.
        v: bool,
        /// The post's location.
        next: u16,
    },
}

/// The answer of the checker.
#[derive(Drop)]
pub enum Verdict<D> {
    /// All that is checked holds.
    Certified {
        /// How many rows the certificate has.
        rows: u32,
        /// How many cases its rows have.
        cases: u64,
    },
    /// Something fails, and this first.
    Refused(Refusal<D>),
}
