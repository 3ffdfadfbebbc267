//! The words of two values, as a set.

ghost use Rattle.std.specs.Prelude.{◌<◌};
ghost use Rattle.ags_domain.specs.SetOf.{IsNext};
ghost use Rattle.ags_domain.specs.Value.{value_held, value_meaning};
ghost use Rattle.ags_domain.specs.Domain.{held_by_either};
ghost use Rattle.ags_domain.specs.Gathering.{AreGathered};

use crate::values::Value;
use crate::word_lists::{MOST_WORDS, WordList};
use crate::word_sets::WordSet;
use ags_word::Word;

/// The least word of a value whose number is from a number on.
fn next(value: &Value, from: u32) -> Option<Word>
    ensures { IsNext (value_held value.now) from result }
{
    match value {
        Value::Range(range) => range.next(from),
        Value::Words(set) => set.next(from),
    }
}

/// The least word of two values whose number is from a number on.
fn next_of_either(left: &Value, right: &Value, from: u32) -> Option<Word>
    ensures { IsNext (held_by_either value_meaning left.now right.now) from result }
{
    match (next(left, from), next(right, from)) {
        (Some(one), Some(other)) => Some(if one.number() <= other.number() {
            one
        } else {
            other
        }),
        (Some(one), None) => Some(one),
        (None, other) => other,
    }
}

/// The words that one of two values holds, and nothing where they are more than 16.
pub(crate) fn gather(left: &Value, right: &Value) -> Option<WordSet>
    ensures { AreGathered (held_by_either value_meaning left.now right.now) result }
{
    let mut list = WordList::new();
    let mut from = 0;
    while let Some(word) = next_of_either(left, right, from) {
        if list.len() == MOST_WORDS {
            return None;
        }
        list.push(word);
        from = word.number() + 1;
    }
    Some(WordSet::made(list))
}
