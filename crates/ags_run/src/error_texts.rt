//! What a play met, as it is printed.

use crate::outside::Outside;
use crate::play_error::PlayError;
use ags_text::FourDigits;
use ags_word::{SixDigits, Word};
use std::fmt;

/// A word that isn't declared for the address that has it, by what is at that address.
#[derive(Clone, Copy)]
struct Undeclared(&'static str, u16, Word);

impl fmt::Display for Undeclared {
    ghost use Rattle.std.specs.Prelude.{Some, ◌++◌, codes};
    ghost use Rattle.ags_play.specs.OutsideText.{at_text};

    ghost output = { λ line. Some (codes "OUTSIDE " ++ line.0.now ++ codes " " ++ at_text line.1 line.2) };

    fn fmt<W: fmt::Write>(&self, f: &mut fmt::Formatter<W>) -> fmt::Result {
        let what = self.0;
        let address = FourDigits(self.1);
        let word = SixDigits(self.2);
        write!(f, "OUTSIDE {what} {address} {word}")
    }
}

/// Prints what is outside of a start, without a line feed.
impl fmt::Display for Outside {
    ghost use Rattle.std.specs.Prelude.{Some};
    ghost use Rattle.ags_play.specs.OutsideText.{outside_text};
    ghost use Rattle.ags_run.specs.Play.{outside_of};

    ghost output = { λ outside. Some (outside_text (outside_of outside)) };

    fn fmt<W: fmt::Write>(&self, f: &mut fmt::Formatter<W>) -> fmt::Result {
        match *self {
            Outside::Place { script, cert } => {
                let script = FourDigits(script);
                let cert = FourDigits(cert);
                write!(f, "OUTSIDE START {script} {cert}")
            }
            Outside::Cell { address, word } => Undeclared("CELL", address, word).fmt(f),
            Outside::Port { address, word } => Undeclared("PORT", address, word).fmt(f),
        }
    }
}

/// Prints what the certificate doesn't declare, without a line feed. A fault of the output and want of memory have no line, so that
/// nothing is printed of them.
impl fmt::Display for PlayError {
    ghost use Rattle.std.specs.Prelude.{Some};
    ghost use Rattle.ags_run.specs.ErrorText.{error_text};

    ghost output = { λ error. Some (error_text error) };

    fn fmt<W: fmt::Write>(&self, f: &mut fmt::Formatter<W>) -> fmt::Result {
        match *self {
            PlayError::StartOutside(outside) => outside.fmt(f),
            PlayError::InputRange { address, word } => Undeclared("IN", address, word).fmt(f),
            PlayError::WriteFault | PlayError::NoMemory => Ok(()),
        }
    }
}
