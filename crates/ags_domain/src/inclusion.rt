//! Whether a value lies within a range or a word set.

ghost use Rattle.std.specs.Prelude.{◌≡◌, ◌↔◌, ◌&&◌, IsTrue, true};
ghost use Rattle.std.specs.List.{list_all};
ghost use Rattle.ags_domain.specs.WordSet.{ascends_from, lists};
ghost use Rattle.ags_domain.specs.Range.{range_ends, lies_between};
ghost use Rattle.ags_domain.specs.Value.{value_held};
ghost use Rattle.ags_domain.specs.Inclusion.{AreAllIn};

use crate::gathering::gather;
use crate::ranges::Range;
use crate::values::Value;
use crate::word_sets::WordSet;
use ags_word::Word;

/// Whether a range has two words.
fn has_ends(range: &Range, least: Word, greatest: Word) -> bool
    ensures { result ≡ (lies_between (range_ends range.now) least && lies_between (range_ends range.now) greatest) }
{
    range.has(least) && range.has(greatest)
}

/// Whether a range has every word of a value.
pub(crate) fn is_within_range(value: &Value, range: &Range) -> bool
    ensures { IsTrue result ↔ AreAllIn (value_held value.now) (lies_between (range_ends range.now)) }
{
    has_ends(range, value.least_word(), value.greatest_word())
}

/// Whether some words have each of others. Both ascend, so that one walk along both tells.
fn are_among(inner: &[Word], outer: &[Word]) -> bool
    requires inner { ascends_from 0 inner.now ≡ true }
    requires outer { ascends_from 0 outer.now ≡ true }
    ensures { result ≡ list_all (lists outer.now) inner.now }
{
    let mut met = 0;
    for word in outer {
        if met == inner.len() {
            return true;
        }
        let next = inner[met].number();
        if next < word.number() {
            return false;
        }
        if next == word.number() {
            met += 1;
        }
    }
    met == inner.len()
}

/// Whether one set has every word of another.
fn is_within(inner: &WordSet, outer: &WordSet) -> bool
    ensures { result ≡ list_all (lists outer.now.list) inner.now.list }
{
    are_among(inner.words(), outer.words())
}

/// Whether a word set has every word of a range, which are gathered.
fn is_range_within(range: &Range, set: &WordSet) -> bool
    ensures { IsTrue result ↔ AreAllIn (lies_between (range_ends range.now)) (lists set.now.list) }
{
    let value = Value::Range(*range);
    match gather(&value, &value) {
        Some(words) => is_within(&words, set),
        None => false,
    }
}

/// Whether a word set has every word of a value.
pub(crate) fn is_within_set(value: &Value, set: &WordSet) -> bool
    ensures { IsTrue result ↔ AreAllIn (value_held value.now) (lists set.now.list) }
{
    match value {
        Value::Range(range) => is_range_within(range, set),
        Value::Words(words) => is_within(words, set),
    }
}
