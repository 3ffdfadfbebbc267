//! The pair of A and Q as one number: how it is made and taken apart, its shifts and its division.

ghost use Rattle.std.specs.Prelude.{◌≡◌, ℤ, ◌<◌, ◌^◌, not, pos, ◌≤ℤ◌, ◌<ℤ◌, ◌*ℤ◌, neg_ℤ};
ghost use Rattle.ags_word.specs.Long.{long, pair, fits_long, wrap_long, shifted_right as shifted_down, divided};

use crate::whole::{quotient, shifted_left, shifted_right, wrapped_long};
use crate::words::Word;
use std::marker::Model;

/// The number of a pair of words, A above Q's low 17 bits: from -2^34 to 2^34 - 1.
#[derive(Clone, Copy)]
pub struct Long {
    value: i64,
}

impl Model for Long {
    ghost Value = { ℤ };

    ghost view = { λ l. l.value };

    ghost invariant = { λ l. (neg_ℤ (pos (2 ^ 34)) ≤ℤ l.value) × (l.value <ℤ pos (2 ^ 34)) };

    ghost inverse = { λ n. record { value = n } };
}

impl Long {
    /// The number that A and Q stand for; Q's top bit doesn't count.
    pub fn of(a: Word, q: Word) -> Long
        ensures { result ≡ long a q }
    {
        Long {
            value: i64::from(a.value()) * 131_072 + i64::from(q.number() % 131_072),
        }
    }

    /// The A and the Q that the number sets; Q's top bit is A's.
    pub fn split(self) -> (Word, Word)
        ensures { result ≡ pair self }
    {
        pair_of(i128::from(self.value))
    }

    /// The right shift: the quotient by 2^count, rounded down.
    pub fn lrs(self, count: u32) -> Long
        requires { count < 64 }
        ensures { result ≡ shifted_down self count }
    {
        Long {
            value: shifted_right(i128::from(self.value), count) as i64,
        }
    }

    /// The left shift: what is left of the product with 2^count, and whether that product was out of range.
    pub fn lls(self, count: u32) -> (Long, bool)
        requires { count < 64 }
        ensures long { result.0 ≡ wrap_long (self *ℤ pos (2 ^ count)) }
        ensures over { result.1 ≡ not (fits_long (self *ℤ pos (2 ^ count))) }
    {
        let shifted = shifted_left(self.value, count);
        let long = Long {
            value: wrapped_long(shifted),
        };
        (long, !is_fitting(shifted))
    }

    /// The word of the quotient by a word's value, cut off toward zero, and nothing where that value is 0
    /// or the quotient doesn't fit.
    pub fn divide(self, m: Word) -> Option<Word>
        ensures { result ≡ divided self m }
    {
        let divisor = m.value();
        if divisor == 0 {
            return None;
        }
        Word::fitting(i128::from(quotient(self.value, divisor)))
    }
}

/// The A and the Q that a whole number sets.
pub(crate) fn pair_of(n: i128) -> (Word, Word)
    ensures { result ≡ pair n }
{
    let a = Word::wrapped(shifted_right(n, 17));
    (a, a.above(n.rem_euclid(131_072) as u32))
}

/// Whether a whole number is one that a pair stands for.
pub(crate) fn is_fitting(n: i128) -> bool
    ensures { result ≡ fits_long n }
{
    -17_179_869_184 <= n && n < 17_179_869_184
}
