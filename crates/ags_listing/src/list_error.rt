//! Why a listing has no image.

use ags_text::FourDigits;
use std::fmt;

/// The first fault of a listing, or want of memory.
#[derive(Clone, Copy)]
pub enum ListError {
    /// Number 1: this line hasn't the form of a listing's.
    BadLine {
        /// Its number, counted from 1.
        line: u32,
    },
    /// Number 2: an earlier line has a word at this line's place.
    PlaceTwice {
        /// Its number, counted from 1.
        line: u32,
        /// The place.
        location: u16,
    },
    /// Number 3: there was too little memory.
    NoMemory,
}

/// A place that comes twice, as it stands in the line of a listing's fault: the number and the name of the fault, and the place.
#[derive(Clone, Copy)]
struct Twice(u16);

impl fmt::Display for Twice {
    ghost use Rattle.std.specs.Prelude.{Some};
    ghost use Rattle.ags_listing.specs.ErrorText.{twice_text};

    ghost output = { λ place. Some (twice_text place.0) };

    #[tactic(auto, unfolding(crate::specs::ErrorText::twice_text))]
    fn fmt<W: fmt::Write>(&self, f: &mut fmt::Formatter<W>) -> fmt::Result {
        let place = FourDigits(self.0);
        write!(f, "2 PlaceTwice {place}")
    }
}

/// Prints the line of a listing's fault, without a line feed. Want of memory prints nothing.
impl fmt::Display for ListError {
    ghost use Rattle.std.specs.Prelude.{Some};
    ghost use Rattle.ags_listing.specs.ErrorText.{error_text};

    ghost output = { λ error. Some (error_text error) };

    fn fmt<W: fmt::Write>(&self, f: &mut fmt::Formatter<W>) -> fmt::Result {
        match self {
            ListError::BadLine { line } => write!(f, "LISTING LINE {line} ERROR 1 BadLine"),
            ListError::PlaceTwice { line, location } => {
                let twice = Twice(*location);
                write!(f, "LISTING LINE {line} ERROR {twice}")
            }
            ListError::NoMemory => Ok(()),
        }
    }
}
