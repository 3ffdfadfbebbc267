//! The reading of a text of times.

ghost use Rattle.std.specs.Prelude.{◌≡◌, ◌≤◌, IfOk, IfErr, length};
ghost use Rattle.ags_times.specs.Text.{IsBudgetOf, IsRefused, error_of};

use crate::budget_errors::{BudgetError, BudgetKind};
use crate::budgets::Budget;
use crate::gatherers::Gatherer;
use ags_statements::{TextError, read_text};
use std::alloc::Global;

/// The most bytes of a text of times.
pub const TIMES_LIMIT: usize = 4_194_304;

/// The latest version of texts of times.
const LATEST_VERSION: u32 = 1;

/// The error that a text's fault is told as.
fn error_of(error: TextError<BudgetKind>) -> BudgetError
    ensures { result ≡ error_of error }
{
    match error {
        TextError::At { line, fault } => BudgetError::At { line, kind: fault },
        TextError::NoMemory => BudgetError::NoMemory,
    }
}

/// Reads a text of times of at most 4,194,304 bytes for a certificate of so many rows: the budget that its lines state, or its first
/// fault (docs/TIMES.md, Faults). A line's number counts every line, skipped ones too; where END is missing it is the line after the
/// last. On one line the fault of the least number comes. `NoMemory` may come at any text, and says nothing of it.
pub fn read(alloc: Global, bytes: &[u8], rows: u32) -> Result<Budget, BudgetError>
    requires { length bytes.now ≤ 4194304 }
    // The text is one of times without a fault, and these are its bounds; or its first fault is this one.
    ensures read { IfOk result (λ budget. IsBudgetOf rows bytes.now budget) }
    ensures refused { IfErr result (IsRefused rows bytes.now) }
{
    let Ok(gatherer) = Gatherer::new(alloc, rows) else {
        return Err(BudgetError::NoMemory);
    };
    match read_text(bytes, b"AGSTIME", LATEST_VERSION, gatherer) {
        Ok(gathered) => Ok(Budget::of(gathered.bounds)),
        Err(error) => Err(error_of(error)),
    }
}
