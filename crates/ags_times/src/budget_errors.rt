//! Why a text of times isn't read.

ghost use Rattle.std.specs.Prelude.{◌≡◌};

use std::fmt;

/// What is wrong with a line, by the number and the name that it is printed with (docs/TIMES.md, Faults).
#[derive(Clone, Copy)]
pub enum BudgetKind {
    /// Number 1: the line is none of the forms, out of order or too long; or END is missing.
    BadLine,
    /// Number 2: the first line has another version than 1.
    Version,
    /// Number 3: a row is named a second time.
    Twice,
    /// Number 4: the certificate has no row of that number.
    NoRow,
    /// Number 5: the bound is 0 or above 20,000.
    TimeRange,
}

/// Why a text of times wasn't read.
#[derive(Clone, Copy)]
pub enum BudgetError {
    /// It has a fault, and this is the first.
    At {
        /// The faulty line's number, counted from 1.
        line: u32,
        /// What is wrong with it.
        kind: BudgetKind,
    },
    /// The memory didn't suffice.
    NoMemory,
}

/// Prints the kind as it stands in the line of a fault: its number and its name.
impl fmt::Display for BudgetKind {
    ghost use Rattle.std.specs.Prelude.{Some};
    ghost use Rattle.ags_times.specs.FaultText.{kind_text};

    ghost output = { λ kind. Some (kind_text kind) };

    fn fmt<W: fmt::Write>(&self, f: &mut fmt::Formatter<W>) -> fmt::Result {
        f.write_str(match self {
            BudgetKind::BadLine => "1 BadLine",
            BudgetKind::Version => "2 Version",
            BudgetKind::Twice => "3 Twice",
            BudgetKind::NoRow => "4 NoRow",
            BudgetKind::TimeRange => "5 TimeRange",
        })
    }
}

/// Prints the line of a fault, without a line feed, and nothing where memory didn't suffice.
impl fmt::Display for BudgetError {
    ghost use Rattle.std.specs.Prelude.{Some};
    ghost use Rattle.ags_times.specs.FaultText.{error_text};

    ghost output = { λ error. Some (error_text error) };

    fn fmt<W: fmt::Write>(&self, f: &mut fmt::Formatter<W>) -> fmt::Result {
        match self {
            BudgetError::At { line, kind } => write!(f, "TIMES LINE {line} ERROR {kind}"),
            BudgetError::NoMemory => Ok(()),
        }
    }
}
