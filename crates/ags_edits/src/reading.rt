//! The reading of a text of edits.

ghost use Rattle.std.specs.Prelude.{◌≡◌, ◌≤◌, All, IfOk, IfErr, length};
ghost use Rattle.ags_edits.specs.Limit.{edits_limit};
ghost use Rattle.ags_edits.specs.Text.{IsEditsOf, IsLawful, IsRefused, error_of};

use crate::edits::Edit;
use crate::edits_errors::{EditsError, EditsKind};
use crate::gatherers::Gatherer;
use ags_statements::{TextError, read_text};
use std::alloc::Global;

/// The most bytes of a text of edits.
pub const EDITS_LIMIT: usize = 4_194_304;

/// The most edits of a text.
pub const MOST_EDITS: usize = 10_000;

/// The latest version of texts of edits.
const LATEST_VERSION: u32 = 1;

/// The error that a text's fault is told as.
fn error_of(error: TextError<EditsKind>) -> EditsError
    ensures { result ≡ error_of error }
{
    match error {
        TextError::At { line, fault } => EditsError::At { line, kind: fault },
        TextError::NoMemory => EditsError::NoMemory,
    }
}

/// Reads a text of edits of at most 4,194,304 bytes: the edits that its lines state, in order, or its first fault (docs/EDITS.md, Faults).
/// A line's number counts every line, skipped ones too; where END is missing it is the line after the last. On one line the fault of the
/// least number comes. That a row's number is one of a certificate's is no question here. `NoMemory` may come at any text, and says
/// nothing of it.
pub fn read(alloc: Global, bytes: &[u8]) -> Result<Vec<Edit>, EditsError>
    requires { length bytes.now ≤ edits_limit }
    // The text is one of edits without a fault, and it states these; or its first fault is this one.
    ensures read { IfOk result (λ edits. IsEditsOf bytes.now edits.items) }
    ensures refused { IfErr result (IsRefused bytes.now) }
    // A word is one of 18 bits at one of the 4096 locations, and a limit is one of an erasable cell.
    ensures lawful { IfOk result (λ edits. All IsLawful edits.items) }
{
    match read_text(bytes, b"AGSEDIT", LATEST_VERSION, Gatherer::new(alloc)) {
        Ok(all) => Ok(all.edits),
        Err(error) => Err(error_of(error)),
    }
}
