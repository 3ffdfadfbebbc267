//! What the checker answers at a case.

use ags_domain::Operands;
use ags_row::Post;

/// The posts of a case: a single post is the first, and of two the one that goes elsewhere is.
#[derive(PartialEq, Eq, Drop)]
pub struct PostPair<D> {
    /// The first post.
    pub first: Option<Post<D>>,
    /// The second post.
    pub second: Option<Post<D>>,
}

/// Why the checker stops at a case. Where several reasons hold, the one that stands earlier here is told.
#[derive(PartialEq, Eq, Drop)]
pub enum Stop<D> {
    /// The word is no order.
    NoOrder,
    /// INP names no input register, or OUT names no output register.
    BadPort,
    /// The order stores to a fixed cell.
    FixedWrite {
        /// The cell's address.
        address: u16,
    },
    /// Some operands overflow, and the location is not named as a place of an overflow.
    MayOverflow(Operands),
    /// What is stored may be outside the cell's limit.
    CellRange {
        /// The cell's address.
        address: u16,
        /// What is stored.
        value: D,
    },
    /// What is given may be outside the output register's limit.
    OutputRange {
        /// The register's address.
        address: u16,
        /// What is given.
        value: D,
    },
}
