//! The lines of rows, and what may stand in Q.

ghost use Rattle.std.specs.Prelude.{Some};

use ags_text::FourDigits;
use ags_word::{SixDigits, Word};
use std::fmt;

/// What a row says of Q.
#[derive(Clone, Copy)]
pub(crate) enum InQ {
    /// Every word.
    Any,
    /// The return word of a call alone.
    Return(Word),
}

/// Prints it as a value of a certificate.
impl fmt::Display for InQ {
    ghost use Rattle.ags_load.specs.Printed.{q_text};

    ghost output = { λ q. Some (q_text q) };

    fn fmt<W: fmt::Write>(&self, f: &mut fmt::Formatter<W>) -> fmt::Result {
        match *self {
            InQ::Any => f.write_str("ANY"),
            InQ::Return(word) => {
                let word = SixDigits(word);
                write!(f, "WORDS {word}")
            }
        }
    }
}

/// A row: its location, what it says of A, and what it says of Q.
#[derive(Clone, Copy)]
pub(crate) struct RowLine {
    pub(crate) location: u16,
    pub(crate) a: &'static str,
    pub(crate) q: InQ,
}

/// Prints the row's line, without a line feed.
#[tactic(auto, unfolding(crate::specs::Workload::row_line))]
impl fmt::Display for RowLine {
    ghost use Rattle.ags_load.specs.Workload.{row_line};
    ghost use Rattle.ags_load.specs.Printed.{q_text};

    ghost output = { λ row. Some (row_line row.location row.a.now (q_text row.q)) };

    fn fmt<W: fmt::Write>(&self, f: &mut fmt::Formatter<W>) -> fmt::Result {
        let location = FourDigits(self.location);
        let a = self.a;
        let q = self.q;
        write!(f, "ROW {location} A {a} Q {q} X 0 V 0")
    }
}
