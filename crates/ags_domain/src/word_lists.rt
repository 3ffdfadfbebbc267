//! A list of up to 16 words that is copied like a word.

ghost use Rattle.std.specs.Prelude.{◌≡◌, ℕ, ◌+◌, ◌-◌, ◌<◌, ◌≤◌, List, [], ◌∷◌, ◌++◌, length, take};

use ags_word::Word;
use std::marker::Model;

/// How many words a word set has at most.
pub const MOST_WORDS: usize = 16;

/// Up to 16 words in an array; after them it is filled up with 0.
#[derive(Clone, Copy, Debug, PartialEq, Eq)]
pub(crate) struct WordList {
    words: [Word; MOST_WORDS],
    count: usize,
}

impl Model for WordList {
    ghost use Rattle.std.specs.Prelude.{ℕ, List, take};
    ghost use Rattle.ags_domain.specs.WordList.{IsFilledUp, filled_up, filled_up-take};

    ghost Value = { List ℕ };

    ghost view = { λ list. take list.count list.words };

    ghost invariant = { λ list. IsFilledUp list.words list.count };

    ghost inverse = { λ words. record { words = filled_up words; count = Rattle.std.specs.Prelude.length words } };

    ghost inverse_ok = { λ list is. filled_up-take list is };
}

impl WordList {
    /// No words.
    pub(crate) fn new() -> WordList
        ensures { result ≡ [] }
    {
        WordList {
            words: [Word::ZERO; MOST_WORDS],
            count: 0,
        }
    }

    /// How many words there are.
    pub(crate) fn len(&self) -> usize
        ensures same { result ≡ length self.now }
        ensures few { length self.now ≤ 16 }
    {
        self.count
    }

    /// The words.
    pub(crate) fn as_slice(&self) -> &[Word]
        ensures { result.now ≡ self.now }
    {
        &self.words[..self.count]
    }

    /// Puts a word after the others.
    pub(crate) fn push(&mut self, word: Word)
        requires { length self.old < 16 }
        ensures { self.new ≡ self.old ++ word ∷ [] }
    {
        self.words[self.count] = word;
        self.count += 1;
    }
}
