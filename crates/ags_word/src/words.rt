//! A word of the machine: its number, and its value as a signed number.

ghost use Rattle.std.specs.Prelude.{◌≡◌, ℕ, ◌+◌, ◌<◌, ◌≤◌, ◌^◌, not, pos, neg_ℤ, ◌≤ℤ◌, ◌<ℤ◌, Some, None};
ghost use Rattle.ags_word.specs.Word.{val, fits, wrap, word_of_value};
ghost use Rattle.ags_word.specs.Long.{top_bit};

use std::marker::Model;

/// How many words there are: 2^18.
const WORDS: u32 = 262_144;

/// How many words have a value that is not negative: 2^17.
const HALF: u32 = 131_072;

/// A word of the machine: a number below 2^18.
#[derive(Clone, Copy, Debug, PartialEq, Eq)]
pub struct Word {
    number: u32,
}

impl Model for Word {
    ghost Value = { ℕ };

    ghost view = { λ w. w.number };

    ghost invariant = { λ w. w.number < 2 ^ 18 };

    ghost inverse = { λ n. record { number = n } };
}

// No clause can name the constant, so what it is stands here.
const _: () = prove!(Word::ZERO.number == 0);

impl Word {
    /// The word with no bit set.
    pub const ZERO: Word = Word { number: 0 };

    /// The word of a number, and nothing from 2^18 up.
    pub fn of(number: u32) -> Option<Word>
        ensures fits { number < 2 ^ 18 → result ≡ Some number }
        ensures over { 2 ^ 18 ≤ number → result ≡ None }
    {
        if number < WORDS {
            Some(Word { number })
        } else {
            None
        }
    }

    /// The word's number.
    pub fn number(self) -> u32
        ensures same { result ≡ self }
        ensures below { result < 2 ^ 18 }
    {
        self.number
    }

    /// The word's value: its number below 2^17, and its number less 2^18 from there on.
    pub fn value(self) -> i32
        ensures same { result ≡ val self }
        ensures least { neg_ℤ (pos (2 ^ 17)) ≤ℤ result }
        ensures most { result <ℤ pos (2 ^ 17) }
    {
        if self.number < HALF {
            self.number as i32
        } else {
            self.number as i32 - 262_144
        }
    }

    /// The word of a value, and nothing outside -2^17 to 2^17 - 1.
    pub fn from_value(n: i32) -> Option<Word>
        ensures { result ≡ word_of_value n }
    {
        Word::fitting(i128::from(n))
    }

    /// The word of a value, and nothing for a whole number that doesn't fit.
    pub(crate) fn fitting(n: i128) -> Option<Word>
        ensures { result ≡ word_of_value n }
    {
        if is_fitting(n) {
            Some(Word::wrapped(n))
        } else {
            None
        }
    }

    /// The word that is left of a whole number.
    pub(crate) fn wrapped(n: i128) -> Word
        ensures { result ≡ wrap n }
    {
        Word {
            number: n.rem_euclid(262_144) as u32,
        }
    }

    /// The word that is left of a whole number, and whether the number didn't fit.
    pub(crate) fn settled(n: i128) -> (Word, bool)
        ensures word { result.0 ≡ wrap n }
        ensures over { result.1 ≡ not (fits n) }
    {
        (Word::wrapped(n), !is_fitting(n))
    }

    /// The word with this word's top bit above 17 other bits.
    pub(crate) fn above(self, low: u32) -> Word
        requires { low < 2 ^ 17 }
        ensures { result ≡ top_bit self + low }
    {
        Word {
            number: self.number / HALF * HALF + low,
        }
    }
}

/// Whether a whole number is the value of a word.
fn is_fitting(n: i128) -> bool
    ensures { result ≡ fits n }
{
    -131_072 <= n && n < 131_072
}
