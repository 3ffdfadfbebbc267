//! The words of a word set.

ghost use Rattle.std.specs.Prelude.{◌≡◌, ℕ, List, Option, IfSome, IsSomeAnd};
ghost use Rattle.ags_domain.specs.declared.values.Value.{Value};
ghost use Rattle.ags_certtext.specs.Front.{BeginsWithWord, BeginsWithWords, IsSetFront};

use crate::numbers::read_word;
use ags_domain::{MOST_WORDS, Value, WordSet};
use ags_text::split_field;
use ags_word::Word;

/// The set of some words as a value, beside what stands after them.
fn set_front<'a>(words: &[Word], behind: &'a [u8]) -> Option<(Option<Value>, &'a [u8])>
    ensures found { IfSome result (λ front. IsSetFront words.now behind.now front.0 front.1.now) }
    ensures only { (value : Option Value) (rest : List ℕ) → IsSetFront words.now behind.now value rest
        → IsSomeAnd result (λ front. (front.0 ≡ value) × (front.1.now ≡ rest)) }
{
    let set = WordSet::of(words)?;
    Some((Some(Value::Words(set)), behind))
}

/// The word set that the fields at the front of a text state, and what stands after them: all fields up to the first that is no
/// word. It is none where these are more than a word set has.
pub(crate) fn read_words(text: &[u8]) -> Option<(Option<Value>, &[u8])>
    ensures found { IfSome result (λ front. BeginsWithWords text.now front.0 front.1.now) }
    ensures ends { IfSome result (λ front. BeginsWithWord front.1.now → ⊥) }
    ensures only { (value : Option Value) (rest : List ℕ) → BeginsWithWords text.now value rest → (BeginsWithWord rest → ⊥)
        → IsSomeAnd result (λ front. (front.0 ≡ value) × (front.1.now ≡ rest)) }
{
    let mut words = [Word::ZERO; MOST_WORDS];
    let mut rest = text;
    for count in 0..MOST_WORDS {
        let (field, behind) = split_field(rest);
        let Some(word) = read_word(field) else {
            return set_front(&words[..count], rest);
        };
        words[count] = word;
        rest = behind;
    }
    let (further, _) = split_field(rest);
    match read_word(further) {
        None => set_front(&words, rest),
        Some(_word) => None,
    }
}
