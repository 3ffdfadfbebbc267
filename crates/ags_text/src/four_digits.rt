//! A location or an address as it is printed.

ghost use Rattle.std.specs.Prelude.{Some};
ghost use Rattle.ags_text.specs.Numeral.{octal4_text};

use crate::numerals::octal4;
use std::fmt;

/// A location or an address that prints as its last four octal digits.
#[derive(Clone, Copy)]
pub struct FourDigits(pub u16);

impl fmt::Display for FourDigits {
    ghost output = { λ address. Some (octal4_text address.0) };

    fn fmt<W: fmt::Write>(&self, f: &mut fmt::Formatter<W>) -> fmt::Result {
        let digits = octal4(u32::from(self.0));
        f.write_str(str::from_utf8(&digits).unwrap())
    }
}
