//! Why a script isn't read.

ghost use Rattle.std.specs.Prelude.{◌≡◌};

use std::alloc::{AllocError, AllocFailed};
use std::fmt;

/// What is wrong with a line, by the number and the name that it is printed with.
#[derive(Clone, Copy)]
pub enum ScriptKind {
    /// Number 1: the line is none of the forms, out of place, or longer than 512 bytes.
    BadLine,
    /// Number 2: the machine has no input register that PORT, SET or FEED names, or no output register that SHOW OUT names.
    NoPort,
    /// Number 3: with this line the steps so far, a cycle counted as 20,000, are more than 100,000,000.
    TooManySteps,
}

/// Why a script wasn't read.
#[derive(Clone, Copy)]
pub enum ScriptError {
    /// It has a fault, and this is the first.
    At {
        /// The faulty line's number, counted from 1.
        line: u32,
        /// What is wrong with it.
        kind: ScriptKind,
    },
    /// The memory didn't suffice.
    NoMemory,
}

/// Prints the kind as it stands in the line of a script's fault: its number and its name.
impl fmt::Display for ScriptKind {
    ghost use Rattle.std.specs.Prelude.{Some};
    ghost use Rattle.ags_script.specs.FaultText.{kind_text};

    ghost output = { λ kind. Some (kind_text kind) };

    fn fmt<W: fmt::Write>(&self, f: &mut fmt::Formatter<W>) -> fmt::Result {
        f.write_str(match self {
            ScriptKind::BadLine => "1 BadLine",
            ScriptKind::NoPort => "2 NoPort",
            ScriptKind::TooManySteps => "3 TooManySteps",
        })
    }
}

/// Prints the line of a script's fault, without a line feed, and nothing where memory didn't suffice.
impl fmt::Display for ScriptError {
    ghost use Rattle.std.specs.Prelude.{Some};
    ghost use Rattle.ags_script.specs.FaultText.{error_text};

    ghost output = { λ error. Some (error_text error) };

    fn fmt<W: fmt::Write>(&self, f: &mut fmt::Formatter<W>) -> fmt::Result {
        match self {
            ScriptError::At { line, kind } => write!(f, "SCRIPT LINE {line} ERROR {kind}"),
            ScriptError::NoMemory => Ok(()),
        }
    }
}

impl From<AllocError> for ScriptError {
    ghost use Rattle.ags_script.specs.declared.script_errors.ScriptError.TheVariants.{NoMemory};

    ghost from_gives = { λ _ error. error ≡ NoMemory };

    fn from(_error: AllocError) -> ScriptError {
        ScriptError::NoMemory
    }
}

impl<T: Drop> From<AllocFailed<T>> for ScriptError {
    ghost use Rattle.ags_script.specs.declared.script_errors.ScriptError.TheVariants.{NoMemory};

    ghost from_gives = { λ _ error. error ≡ NoMemory };

    fn from(_error: AllocFailed<T>) -> ScriptError {
        ScriptError::NoMemory
    }
}
