//! Values as they are printed, which is their form in a certificate.

ghost use Rattle.std.specs.Prelude.{◌≡◌, Some};
ghost use Rattle.ags_domain.specs.Range.{range_ends};
ghost use Rattle.ags_domain.specs.ValueText.{are_full};

use crate::named_words::{first_word, low_bits};
use crate::ranges::Range;
use crate::values::Value;
use ags_word::{SixDigits, Word};
use std::fmt;

/// Words that print with a blank before each.
#[derive(Clone, Copy)]
struct Blanked<'a>(&'a [Word]);

impl fmt::Display for Blanked<'_> {
    ghost use Rattle.std.specs.Prelude.{Some};
    ghost use Rattle.ags_domain.specs.ValueText.{words_text};

    ghost output = { λ words. Some (words_text words.0.now) };

    fn fmt<W: fmt::Write>(&self, f: &mut fmt::Formatter<W>) -> fmt::Result {
        for word in self.0 {
            let word = SixDigits(*word);
            write!(f, " {word}")?;
        }
        Ok(())
    }
}

/// Whether a range has every word.
fn is_full(range: &Range) -> bool
    ensures { result ≡ are_full (range_ends range.now) }
{
    range.least == first_word() && range.greatest == low_bits()
}

/// Prints the range by its two values, or as `ANY`.
impl fmt::Display for Range {
    ghost use Rattle.std.specs.Prelude.{Some};
    ghost use Rattle.ags_domain.specs.Range.{range_ends};
    ghost use Rattle.ags_domain.specs.ValueText.{ends_text};

    ghost output = { λ range. Some (ends_text (range_ends range)) };

    fn fmt<W: fmt::Write>(&self, f: &mut fmt::Formatter<W>) -> fmt::Result {
        if is_full(self) {
            return f.write_str("ANY");
        }
        let least = self.least.value();
        let greatest = self.greatest.value();
        write!(f, "RANGE {least} {greatest}")
    }
}

/// Prints the value in its form in a certificate: `ANY`, `RANGE` and two values, or `WORDS` and the words.
impl fmt::Display for Value {
    ghost use Rattle.std.specs.Prelude.{Some};
    ghost use Rattle.ags_domain.specs.ValueText.{value_text};

    ghost output = { λ value. Some (value_text value) };

    fn fmt<W: fmt::Write>(&self, f: &mut fmt::Formatter<W>) -> fmt::Result {
        match self {
            Value::Range(range) => fmt::Display::fmt(range, f),
            Value::Words(set) => {
                let words = Blanked(set.words());
                write!(f, "WORDS{words}")
            }
        }
    }
}
