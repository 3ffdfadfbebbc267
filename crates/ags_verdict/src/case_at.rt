//! A case of a certificate's row, as what is answered of it is printed.

use ags_word::{SixDigits, Word};
use std::fmt;

/// A case, by its row, its word, its index and its indicator.
#[derive(Clone, Copy)]
pub struct CaseAt {
    /// The row's number, from 1.
    pub row: u32,
    /// The word.
    pub word: Word,
    /// The index.
    pub x: u8,
    /// The indicator.
    pub v: bool,
}

/// Prints `ROW r WORD w X x V v`: the word in six octal digits, the indicator as 0 or 1, the other numbers in decimal.
impl fmt::Display for CaseAt {
    ghost use Rattle.std.specs.Prelude.{Some};
    ghost use Rattle.ags_verdict.specs.CaseText.{case_text};

    ghost output = { λ case. Some (case_text case.row case.word case.x case.v) };

    fn fmt<W: fmt::Write>(&self, f: &mut fmt::Formatter<W>) -> fmt::Result {
        let row = self.row;
        let word = SixDigits(self.word);
        let x = self.x;
        let indicator = if self.v { "1" } else { "0" };
        write!(f, "ROW {row} WORD {word} X {x} V {indicator}")
    }
}
