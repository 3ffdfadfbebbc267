//! The reader of tapes.

ghost use Rattle.std.specs.Prelude.{◌≤◌, length, IfOk, IfErr};
ghost use Rattle.ags_image.specs.Tape.{ReadsTape};
ghost use Rattle.ags_image.specs.TapeFault.{IsTapeFault, tape_error};
ghost use Rattle.ags_image.specs.Limit.{tape_limit};
ghost use Rattle.std.specs.Prelude.{◌≡◌};

use crate::images::Image;
use crate::reading::{ReadError, read_image};
use crate::tape_forms::Tape;
use std::alloc::Global;
use thiserror::Error;

/// How many bytes a tape may have, at most.
pub const TAPE_LIMIT: usize = 134_217_728;

/// Why a tape has no image: the first fault in it, or want of memory.
#[derive(Clone, Copy, Debug, PartialEq, Eq, Error)]
pub enum TapeError {
    /// Number 1: this line is none of a tape.
    #[error("a line is none of a tape")]
    BadLine {
        /// Its number, counted from 1.
        line: u32,
    },
    /// Number 2: an earlier line puts a word at this line's place.
    #[error("a line has the place of an earlier one")]
    PlaceTwice {
        /// Its number, counted from 1.
        line: u32,
        /// The place.
        location: u16,
    },
    /// Number 3: there was too little memory.
    #[error("out of memory")]
    NoMemory,
}

/// The same error of a tape.
fn tape_error(error: ReadError) -> TapeError
    ensures { result ≡ tape_error error }
{
    match error {
        ReadError::BadLine { line } => TapeError::BadLine { line },
        ReadError::PlaceTwice { line, location } => TapeError::PlaceTwice { line, location },
        ReadError::NoMemory => TapeError::NoMemory,
    }
}

/// Reads a tape, or tells the first fault (docs/SOURCE.md, Tape). Its lines end at line feeds alone and come in any order,
/// and the last line feed may be missing.
pub fn read_tape(alloc: Global, bytes: &[u8]) -> Result<Image, TapeError>
    requires { length bytes.now ≤ tape_limit }
    ensures image { IfOk result (ReadsTape bytes.now) }
    ensures fault { IfErr result (IsTapeFault bytes.now) }
{
    read_image::<Tape>(alloc, bytes).map_err(tape_error)
}
