//! The values of a certificate's lines: every word, a range, or a word set.

ghost use Rattle.std.specs.Prelude.{◌≡◌, ℕ, true, List, Option, IfSome, IsSomeAnd};
ghost use Rattle.ags_word.specs.Word.{fits};
ghost use Rattle.ags_domain.specs.declared.values.Value.{Value};
ghost use Rattle.ags_certtext.specs.Front.{BeginsWithWord, BeginsWithEnds, BeginsWithValue, EndsItsWords, IsEveryWord, IsValueBetween, IsInForm};

use crate::ends::read_end;
use crate::forms::{Form, form_named};
use crate::word_fields::read_words;
use ags_domain::{Domain, Range, Value};
use ags_text::split_field;

/// The value that holds every word.
fn every_word() -> Option<Value>
    ensures found { IsEveryWord result }
    ensures only { (value : Option Value) → IsEveryWord value → result ≡ value }
{
    Some(Value::full())
}

/// The value of a range between two ends, and nothing where it is empty.
fn value_between(least: i32, greatest: i32) -> Option<Value>
    requires least { fits least ≡ true }
    requires greatest { fits greatest ≡ true }
    ensures found { IsValueBetween least greatest result }
    ensures only { (value : Option Value) → IsValueBetween least greatest value → result ≡ value }
{
    match Range::of(least, greatest) {
        Some(range) => Some(Value::Range(range)),
        None => None,
    }
}

/// The range whose two ends stand at the front of a text, and what stands after them.
fn read_range(text: &[u8]) -> Option<(Option<Value>, &[u8])>
    ensures found { IfSome result (λ front. BeginsWithEnds text.now front.0 front.1.now) }
    ensures only { (value : Option Value) (rest : List ℕ) → BeginsWithEnds text.now value rest
        → IsSomeAnd result (λ front. (front.0 ≡ value) × (front.1.now ≡ rest)) }
{
    let (first, behind) = split_field(text);
    let (second, rest) = split_field(behind);
    let least = read_end(first)?;
    let greatest = read_end(second)?;
    Some((value_between(least, greatest), rest))
}

/// The value of this form that stands at the front of a text, and what stands after it.
fn read_form(form: Form, text: &[u8]) -> Option<(Option<Value>, &[u8])>
    ensures found { IfSome result (λ front. IsInForm form text.now front.0 front.1.now) }
    ensures ends { IfSome result (λ front. form ≡ Form.Listed → BeginsWithWord front.1.now → ⊥) }
    ensures only { (value : Option Value) (rest : List ℕ) → IsInForm form text.now value rest → (form ≡ Form.Listed → BeginsWithWord rest → ⊥)
        → IsSomeAnd result (λ front. (front.0 ≡ value) × (front.1.now ≡ rest)) }
{
    match form {
        Form::Any => Some((every_word(), text)),
        Form::Ends => read_range(text),
        Form::Listed => read_words(text),
    }
}

/// The value that the fields at the front of a text state, and what stands after them (docs/CERTIFICATE.md, Values). There is no value
/// in it where it is a range whose least is above its greatest; and nothing is told where the words after `WORDS` make no set.
pub fn read_value(text: &[u8]) -> Option<(Option<Value>, &[u8])>
    ensures found { IfSome result (λ front. BeginsWithValue text.now front.0 front.1.now) }
    ensures ends { IfSome result (λ front. EndsItsWords text.now front.1.now) }
    ensures only { (value : Option Value) (rest : List ℕ) → BeginsWithValue text.now value rest → EndsItsWords text.now rest
        → IsSomeAnd result (λ front. (front.0 ≡ value) × (front.1.now ≡ rest)) }
{
    let (name, behind) = split_field(text);
    let form = form_named(name)?;
    read_form(form, behind)
}
