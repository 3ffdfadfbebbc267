//! The product of two words: the whole of it as a pair, and the rounded one.

ghost use Rattle.std.specs.Prelude.{◌≡◌, ◌^◌, pos, ◌≤ℤ◌, neg_ℤ};
ghost use Rattle.ags_word.specs.Long.{pair};
ghost use Rattle.ags_word.specs.Operation.{product as exact_product, product_high, product_rounded};

use crate::longs::{is_fitting, pair_of};
use crate::whole::{product, shifted_right};
use crate::words::Word;

impl Word {
    /// The product with another word: the A and the Q that it sets, and whether it is no number of a pair,
    /// which is where both words have the value -2^17.
    pub fn multiply(self, m: Word) -> (Word, Word, bool)
        ensures a { result.0 ≡ product_high.new_a self 0 m }
        ensures q { result.1 ≡ (pair (exact_product self m)).1 }
        ensures over { result.2 ≡ product_high.overflows self 0 m }
    {
        let exact = exact(self, m);
        let (a, q) = pair_of(exact);
        (a, q, !is_fitting(exact))
    }

    /// The rounded product with another word: the word of the product over 2^17, rounded to the nearest and a half up;
    /// Q and the overflow are the product's.
    pub fn multiply_round(self, m: Word) -> (Word, Word, bool)
        ensures a { result.0 ≡ product_rounded.new_a self 0 m }
        ensures q { result.1 ≡ (pair (exact_product self m)).1 }
        ensures over { result.2 ≡ product_rounded.overflows self 0 m }
    {
        let (_, q, over) = self.multiply(m);
        let nearest = shifted_right(exact(self, m) + 65_536, 17);
        (Word::wrapped(nearest), q, over)
    }
}

/// The product of two words' values.
fn exact(a: Word, m: Word) -> i128
    ensures same { result ≡ exact_product a m }
    ensures least { neg_ℤ (pos (2 ^ 34)) ≤ℤ result }
    ensures most { result ≤ℤ pos (2 ^ 34) }
{
    product(i128::from(a.value()), i128::from(m.value()))
}
