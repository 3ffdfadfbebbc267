//! Why a text of scales isn't read.

ghost use Rattle.std.specs.Prelude.{◌≡◌};

use std::fmt;

/// What is wrong with a line, by the number and the name that it is printed with (docs/SCALES.md, Faults).
#[derive(Clone, Copy)]
pub enum ScaleKind {
    /// Number 1: the line is none of the forms, out of order or too long, or names no register of the machine; or END is missing.
    BadLine,
    /// Number 2: the first line has another version than 1.
    Version,
    /// Number 3: an address is named a second time by a line of the same kind, or a row a second time.
    Twice,
    /// Number 4: the certificate has no row of that number.
    NoRow,
}

/// Why a text of scales wasn't read.
#[derive(Clone, Copy)]
pub enum ScaleError {
    /// It has a fault, and this is the first.
    At {
        /// The faulty line's number, counted from 1.
        line: u32,
        /// What is wrong with it.
        kind: ScaleKind,
    },
    /// The memory didn't suffice.
    NoMemory,
}

/// Prints the kind as it stands in the line of a fault: its number and its name.
impl fmt::Display for ScaleKind {
    ghost use Rattle.std.specs.Prelude.{Some};
    ghost use Rattle.ags_tags.specs.FaultText.{kind_text};

    ghost output = { λ kind. Some (kind_text kind) };

    fn fmt<W: fmt::Write>(&self, f: &mut fmt::Formatter<W>) -> fmt::Result {
        f.write_str(match self {
            ScaleKind::BadLine => "1 BadLine",
            ScaleKind::Version => "2 Version",
            ScaleKind::Twice => "3 Twice",
            ScaleKind::NoRow => "4 NoRow",
        })
    }
}

/// Prints the line of a fault, without a line feed, and nothing where memory didn't suffice.
impl fmt::Display for ScaleError {
    ghost use Rattle.std.specs.Prelude.{Some};
    ghost use Rattle.ags_tags.specs.FaultText.{error_text};

    ghost output = { λ error. Some (error_text error) };

    fn fmt<W: fmt::Write>(&self, f: &mut fmt::Formatter<W>) -> fmt::Result {
        match self {
            ScaleError::At { line, kind } => write!(f, "SCALES LINE {line} ERROR {kind}"),
            ScaleError::NoMemory => Ok(()),
        }
    }
}
