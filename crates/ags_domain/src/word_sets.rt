//! Sets of up to 16 words.

ghost use Rattle.std.specs.Prelude.{◌≡◌, ◌<◌, ◌≤◌, true, length};
ghost use Rattle.ags_domain.specs.WordSet.{ascends_from};

use crate::hulls::{greater_word, lesser_word};
use crate::ranges::Range;
use crate::word_lists::{MOST_WORDS, WordList};
use ags_word::Word;

/// One to 16 distinct words, in ascending number.
#[derive(Clone, Copy, Debug, PartialEq, Eq)]
pub struct WordSet {
    list: WordList,
    pub ghost ascending: { ascends_from 0 list ≡ true },
    pub ghost some: { 0 < length list },
    pub ghost few: { length list ≤ 16 },
}

impl WordSet {
    ghost use Rattle.std.specs.Prelude.{◌≡◌, ◌<◌, ◌≤◌, true, length, [], ◌∷◌};
    ghost use Rattle.ags_domain.specs.WordSet.{ascends_from, lists};
    ghost use Rattle.ags_domain.specs.SetOf.{IsSetOf, IsNext, IsFiltered, least_of, greatest_of};
    ghost use Rattle.ags_domain.specs.Range.{range_ends, lies_between};

    /// The set of some words, and nothing where there are none, more than 16, or where one isn't above the one before it.
    pub fn of(words: &[Word]) -> Option<WordSet>
        ensures { IsSetOf words.now result }
    {
        if words.is_empty() || words.len() > MOST_WORDS {
            return None;
        }
        let mut list = WordList::new();
        let mut from = 0;
        for word in words {
            if word.number() < from {
                return None;
            }
            list.push(*word);
            from = word.number() + 1;
        }
        Some(WordSet::made(list))
    }

    /// The set of one word.
    pub(crate) fn single(word: Word) -> WordSet
        ensures { result.list ≡ word ∷ [] }
    {
        let _number = word.number();
        let mut list = WordList::new();
        list.push(word);
        WordSet::made(list)
    }

    /// The set of a list.
    pub(crate) fn made(list: WordList) -> WordSet
        requires ascending { ascends_from 0 list ≡ true }
        requires some { 0 < length list }
        ensures { result.list ≡ list }
    {
        let _count = list.len();
        WordSet { list }
    }

    /// The words, in ascending number.
    pub fn words(&self) -> &[Word]
        ensures same { result.now ≡ self.now.list }
        ensures some { 0 < length result.now }
        ensures few { length result.now ≤ 16 }
        ensures ascending { ascends_from 0 result.now ≡ true }
    {
        self.list.as_slice()
    }

    /// Whether the set has a word.
    pub(crate) fn has(&self, word: Word) -> bool
        ensures { result ≡ lists self.now.list word }
    {
        for listed in self.words() {
            if *listed == word {
                return true;
            }
        }
        false
    }

    /// The least of its words whose number is from a number on.
    pub(crate) fn next(&self, from: u32) -> Option<Word>
        ensures { IsNext (lists self.now.list) from result }
    {
        for word in self.words() {
            if from <= word.number() {
                return Some(*word);
            }
        }
        None
    }

    /// The word of least value.
    pub(crate) fn least(&self) -> Word
        ensures { result ≡ least_of self.now.list }
    {
        let words = self.words();
        let mut least = words[0];
        for word in words {
            least = lesser_word(least, *word);
        }
        least
    }

    /// The word of greatest value.
    pub(crate) fn greatest(&self) -> Word
        ensures { result ≡ greatest_of self.now.list }
    {
        let words = self.words();
        let mut greatest = words[0];
        for word in words {
            greatest = greater_word(greatest, *word);
        }
        greatest
    }

    /// The words that a range has too, and nothing where there are none.
    pub(crate) fn part(&self, range: &Range) -> Option<WordSet>
        ensures { IsFiltered (lies_between (range_ends range.now)) self.now.list result }
    {
        let mut list = WordList::new();
        for word in self.words() {
            if range.has(*word) {
                list.push(*word);
            }
        }
        if list.len() == 0 {
            None
        } else {
            Some(WordSet::made(list))
        }
    }
}
