//! A word as it is printed.

ghost use Rattle.std.specs.Prelude.{Some};
ghost use Rattle.ags_text.specs.Numeral.{octal6_text};

use crate::words::Word;
use std::fmt;

/// A word that prints as six octal digits.
#[derive(Clone, Copy)]
pub struct SixDigits(pub Word);

impl fmt::Display for SixDigits {
    ghost output = { λ word. Some (octal6_text word.0) };

    fn fmt<W: fmt::Write>(&self, f: &mut fmt::Formatter<W>) -> fmt::Result {
        let digits = self.0.octal6();
        f.write_str(str::from_utf8(&digits).unwrap())
    }
}
