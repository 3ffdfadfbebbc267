//! A card's number as it is printed.

ghost use Rattle.std.specs.Prelude.{Some};
ghost use Rattle.ags_text.specs.Numeral.{decimal7_text};

use crate::numerals::decimal7;
use std::fmt;

/// A number that prints as its last seven decimal digits.
#[derive(Clone, Copy)]
pub struct SevenDigits(pub u32);

impl fmt::Display for SevenDigits {
    ghost output = { λ number. Some (decimal7_text number.0) };

    fn fmt<W: fmt::Write>(&self, f: &mut fmt::Formatter<W>) -> fmt::Result {
        let digits = decimal7(self.0);
        f.write_str(str::from_utf8(&digits).unwrap())
    }
}
