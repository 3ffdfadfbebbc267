//! Why a text of edits isn't read.

ghost use Rattle.std.specs.Prelude.{◌≡◌};

use std::fmt;

/// What is wrong with a line, by the number and the name that it is printed with (docs/EDITS.md, Faults).
#[derive(Clone, Copy)]
pub enum EditsKind {
    /// Number 1: the line is none of the forms, out of order or too long, or names a fixed cell; or END is missing.
    BadLine,
    /// Number 2: the first line has another version than 1.
    Version,
    /// Number 3: an address or a link stands a second time in one row.
    Twice,
    /// Number 4: the least of a range is above its greatest.
    EmptyRange,
    /// Number 5: a row has more than 64 cells.
    TooManyAt,
    /// Number 6: there are more than 10,000 edits.
    TooManyEdits,
}

/// Why a text of edits wasn't read.
#[derive(Clone, Copy)]
pub enum EditsError {
    /// It has a fault, and this is the first.
    At {
        /// The faulty line's number, counted from 1.
        line: u32,
        /// What is wrong with it.
        kind: EditsKind,
    },
    /// The memory didn't suffice.
    NoMemory,
}

/// Prints the kind as it stands in the line of a fault: its number and its name.
impl fmt::Display for EditsKind {
    ghost use Rattle.std.specs.Prelude.{Some};
    ghost use Rattle.ags_edits.specs.FaultText.{kind_text};

    ghost output = { λ kind. Some (kind_text kind) };

    fn fmt<W: fmt::Write>(&self, f: &mut fmt::Formatter<W>) -> fmt::Result {
        f.write_str(match self {
            EditsKind::BadLine => "1 BadLine",
            EditsKind::Version => "2 Version",
            EditsKind::Twice => "3 Twice",
            EditsKind::EmptyRange => "4 EmptyRange",
            EditsKind::TooManyAt => "5 TooManyAt",
            EditsKind::TooManyEdits => "6 TooManyEdits",
        })
    }
}

/// Prints the line of a fault, without a line feed, and nothing where memory didn't suffice.
impl fmt::Display for EditsError {
    ghost use Rattle.std.specs.Prelude.{Some};
    ghost use Rattle.ags_edits.specs.FaultText.{error_text};

    ghost output = { λ error. Some (error_text error) };

    fn fmt<W: fmt::Write>(&self, f: &mut fmt::Formatter<W>) -> fmt::Result {
        match self {
            EditsError::At { line, kind } => write!(f, "EDITS LINE {line} ERROR {kind}"),
            EditsError::NoMemory => Ok(()),
        }
    }
}
