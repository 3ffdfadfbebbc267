//! The reading of a text of scales.

ghost use Rattle.std.specs.Prelude.{◌≡◌, ◌≤◌, IfOk, IfErr, length};
ghost use Rattle.ags_tags.specs.Limit.{scales_limit};
ghost use Rattle.ags_tags.specs.Text.{IsScalesOf, IsRefused, error_of};

use crate::gatherers::Gatherer;
use crate::scale_errors::{ScaleError, ScaleKind};
use crate::tables::Scales;
use ags_ports::Machine;
use ags_statements::{TextError, read_text};
use std::alloc::Global;

/// The most bytes of a text of scales.
pub const SCALES_LIMIT: usize = 4_194_304;

/// The latest version of texts of scales.
const LATEST_VERSION: u32 = 1;

/// The error that a text's fault is told as.
fn error_of(error: TextError<ScaleKind>) -> ScaleError
    ensures { result ≡ error_of error }
{
    match error {
        TextError::At { line, fault } => ScaleError::At { line, kind: fault },
        TextError::NoMemory => ScaleError::NoMemory,
    }
}

/// Reads a text of scales of at most 4,194,304 bytes for a machine and a certificate of so many rows: the tags that its lines state, or
/// its first fault (docs/SCALES.md, Faults). A line's number counts every line, skipped ones too; where END is missing it is the line
/// after the last. On one line the fault of the least number comes. `NoMemory` may come at any text, and says nothing of it.
pub fn read(alloc: Global, bytes: &[u8], machine: &Machine, rows: u32) -> Result<Scales, ScaleError>
    requires { length bytes.now ≤ scales_limit }
    // The text is one of scales without a fault, and these are its tags; or its first fault is this one.
    ensures read { IfOk result (λ scales. IsScalesOf machine.now.ports rows bytes.now scales) }
    ensures refused { IfErr result (IsRefused machine.now.ports rows bytes.now) }
{
    let Ok(gatherer) = Gatherer::new(alloc, &machine.ports, rows) else {
        return Err(ScaleError::NoMemory);
    };
    match read_text(bytes, b"AGSSCALE", LATEST_VERSION, gatherer) {
        Ok(all) => Ok(Scales::of(all.cells, all.inputs, all.outputs, all.rows)),
        Err(error) => Err(error_of(error)),
    }
}
