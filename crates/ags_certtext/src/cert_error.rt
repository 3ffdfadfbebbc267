//! Why a certificate isn't read.

ghost use Rattle.std.specs.Prelude.{◌≡◌};

use std::alloc::{AllocError, AllocFailed};
use std::fmt;

/// What is wrong with a line, by the number and the name that it is printed with (docs/CERTIFICATE.md, Faults).
#[derive(Clone, Copy, PartialEq, Eq)]
pub enum CertKind {
    /// Number 1: the line is none of the forms, out of order, too long, none of the text's version, or names a fixed cell or no
    /// register; or END is missing.
    BadLine,
    /// Number 2: the first line has another version than 1 and 2.
    Version,
    /// Number 3: START, an address or a row's link stands a second time.
    Twice,
    /// Number 4: the least of a range is above its greatest.
    EmptyRange,
    /// Number 5: what a cell may hold at the start or in a row is not within its limit.
    OutsideGlobal,
    /// Number 6: the limit of a register that holds its word once doesn't hold 0.
    NoZero,
    /// Number 7: there are more than 20,000 rows, or more than 512 at one location.
    TooManyRows,
    /// Number 8: a row has more than 64 cells.
    TooManyAt,
    /// Number 9: the certificate ends before any row.
    NoRows,
}

/// Why a certificate wasn't read.
#[derive(Clone, Copy, PartialEq, Eq)]
pub enum CertError {
    /// It has a fault, and this is the first.
    At {
        /// The faulty line's number, counted from 1.
        line: u32,
        /// What is wrong with it.
        kind: CertKind,
    },
    /// The memory didn't suffice.
    NoMemory,
}

/// Prints the kind as it stands in the line of a certificate's fault: its number and its name.
impl fmt::Display for CertKind {
    ghost use Rattle.std.specs.Prelude.{Some};
    ghost use Rattle.ags_certtext.specs.FaultText.{kind_text};

    ghost output = { λ kind. Some (kind_text kind) };

    fn fmt<W: fmt::Write>(&self, f: &mut fmt::Formatter<W>) -> fmt::Result {
        f.write_str(match self {
            CertKind::BadLine => "1 BadLine",
            CertKind::Version => "2 Version",
            CertKind::Twice => "3 Twice",
            CertKind::EmptyRange => "4 EmptyRange",
            CertKind::OutsideGlobal => "5 OutsideGlobal",
            CertKind::NoZero => "6 NoZero",
            CertKind::TooManyRows => "7 TooManyRows",
            CertKind::TooManyAt => "8 TooManyAt",
            CertKind::NoRows => "9 NoRows",
        })
    }
}

/// Prints the line of a certificate's fault, without a line feed, and nothing where memory didn't suffice.
impl fmt::Display for CertError {
    ghost use Rattle.std.specs.Prelude.{Some};
    ghost use Rattle.ags_certtext.specs.FaultText.{error_text};

    ghost output = { λ error. Some (error_text error) };

    fn fmt<W: fmt::Write>(&self, f: &mut fmt::Formatter<W>) -> fmt::Result {
        match self {
            CertError::At { line, kind } => write!(f, "CERTIFICATE LINE {line} ERROR {kind}"),
            CertError::NoMemory => Ok(()),
        }
    }
}

impl From<AllocError> for CertError {
    ghost use Rattle.ags_certtext.specs.declared.cert_error.CertError.TheVariants.{NoMemory};

    ghost from_gives = { λ _ error. error ≡ NoMemory };

    fn from(_error: AllocError) -> CertError {
        CertError::NoMemory
    }
}

impl<T: Drop> From<AllocFailed<T>> for CertError {
    ghost use Rattle.ags_certtext.specs.declared.cert_error.CertError.TheVariants.{NoMemory};

    ghost from_gives = { λ _ error. error ≡ NoMemory };

    fn from(_error: AllocFailed<T>) -> CertError {
        CertError::NoMemory
    }
}
