//! What is done to one word in A: sums, differences, its negative, its size and its left shift.
//! Each answers the word that is left of the exact result, and whether that result didn't fit. A word that an operation
//! has no use for is 0 in its clause.

ghost use Rattle.std.specs.Prelude.{◌≡◌, ◌<◌};
ghost use Rattle.ags_word.specs.Operation.{sum, difference, negative, size, left_shift};

use crate::whole::shifted_left;
use crate::words::Word;

impl Word {
    /// The sum with another word.
    pub fn add(self, m: Word) -> (Word, bool)
        ensures word { result.0 ≡ sum.new_a self 0 m }
        ensures over { result.1 ≡ sum.overflows self 0 m }
    {
        Word::settled(i128::from(self.value()) + i128::from(m.value()))
    }

    /// This word less another one.
    pub fn sub(self, m: Word) -> (Word, bool)
        ensures word { result.0 ≡ difference.new_a self 0 m }
        ensures over { result.1 ≡ difference.overflows self 0 m }
    {
        Word::settled(i128::from(self.value()) - i128::from(m.value()))
    }

    /// The negative: it overflows at -2^17 alone.
    pub fn com(self) -> (Word, bool)
        ensures word { result.0 ≡ negative.new_a self 0 0 }
        ensures over { result.1 ≡ negative.overflows self 0 0 }
    {
        Word::settled(-i128::from(self.value()))
    }

    /// The absolute value: it overflows at -2^17 alone.
    pub fn abs(self) -> (Word, bool)
        ensures word { result.0 ≡ size.new_a self 0 0 }
        ensures over { result.1 ≡ size.overflows self 0 0 }
    {
        Word::settled(i128::from(self.value()).abs())
    }

    /// The left shift: the product with 2^count.
    pub fn als(self, count: u32) -> (Word, bool)
        requires { count < 64 }
        ensures word { result.0 ≡ (left_shift count).new_a self 0 0 }
        ensures over { result.1 ≡ (left_shift count).overflows self 0 0 }
    {
        Word::settled(shifted_left(i64::from(self.value()), count))
    }
}
