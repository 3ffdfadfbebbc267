//! Lists of the cases of a row.

ghost use Rattle.std.specs.Prelude.{◌≡◌, ◌<◌, [], ◌∷◌, ◌++◌, length};

use ags_word::Word;
use std::marker::Model;

/// One word of a row's code, with one index and one indicator of the row.
#[derive(Clone, Copy)]
pub struct OneCase {
    word: Word,
    index: u8,
    indicator: bool,
}

impl Model for OneCase {
    ghost use Rattle.std.specs.Prelude.{◌<◌, refl};
    ghost use Rattle.ags_verdict.specs.RowCase.{RowCase};

    ghost Value = { RowCase };

    ghost view = { λ c. record { word = c.word; index = c.index; indicator = c.indicator } };

    ghost invariant = { λ c. c.index < 8 };

    ghost inverse = { λ c. record { word = c.word; index = c.index; indicator = c.indicator } };

    ghost inverse_ok = { λ c is. refl };
}

impl OneCase {
    /// The case of a word, an index and an indicator.
    pub fn new(word: Word, index: u8, indicator: bool) -> OneCase
        requires { index < 8 }
        ensures { result ≡ (record { word = word; index = index; indicator = indicator }) }
    {
        OneCase {
            word,
            index,
            indicator,
        }
    }

    /// The word.
    pub fn word(&self) -> Word
        ensures { result ≡ self.now.word }
    {
        self.word
    }

    /// The index.
    pub fn index(&self) -> u8
        ensures same { result ≡ self.now.index }
        ensures below { result < 8 }
    {
        self.index
    }

    /// The indicator.
    pub fn indicator(&self) -> bool
        ensures { result ≡ self.now.indicator }
    {
        self.indicator
    }
}

/// The cases of a row, in order: at most 256, which are 16 words, each with 8 indices and each of these with 2 indicators.
#[derive(Drop)]
pub struct Cases {
    items: [OneCase; 256],
    count: usize,
}

impl Model for Cases {
    ghost use Rattle.std.specs.Prelude.{◌≡◌, ◌≤◌, List, length, take};
    ghost use Rattle.ags_verdict.specs.RowCase.{RowCase};

    ghost Value = { List RowCase };

    ghost view = { λ cases. take cases.count cases.items };

    ghost invariant = { λ cases. (length cases.items ≡ 256) × (cases.count ≤ 256) };
}

impl Cases {
    /// No cases.
    pub(crate) fn new() -> Cases
        ensures { result ≡ [] }
    {
        Cases {
            items: [OneCase::new(Word::ZERO, 0, false); 256],
            count: 0,
        }
    }

    /// The cases.
    pub fn as_slice(&self) -> &[OneCase]
        ensures { result.now ≡ self.now }
    {
        &self.items[..self.count]
    }

    /// Puts a case after the others.
    pub(crate) fn push(&mut self, case: OneCase)
        requires { length self.old < 256 }
        ensures { self.new ≡ self.old ++ case ∷ [] }
    {
        self.items[self.count] = case;
        self.count += 1;
    }
}
