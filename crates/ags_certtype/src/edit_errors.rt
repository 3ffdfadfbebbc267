//! What an edit of a certificate is refused for.

/// Why an edit isn't made (docs/EDITS.md). The kinds are numbered from 1; the least that holds is told.
#[derive(Clone, Copy)]
pub enum EditError {
    /// No row has the number.
    NoRow,
    /// A cell of the new row may hold more than its limit says.
    OutsideGlobal {
        /// The least such cell.
        address: u16,
    },
    /// What is stated of the cell at the start or in a row isn't within the new limit.
    BelowUse,
    /// 512 other rows stand at the new row's location.
    FullLocation,
}
