//! The ends of a range.

ghost use Rattle.std.specs.Prelude.{◌≡◌, ℤ, IfSome, Some};
ghost use Rattle.ags_word.specs.Word.{fits};
ghost use Rattle.ags_certtext.specs.Front.{IsEnd};

use crate::signed::read_signed;
use ags_word::Word;

/// Whether a number is the value of a word.
fn is_value(number: i32) -> bool
    ensures { result ≡ fits number }
{
    match Word::from_value(number) {
        Some(_) => true,
        None => false,
    }
}

/// The end of a range that a text writes, and nothing where that is no word's value.
pub(crate) fn read_end(text: &[u8]) -> Option<i32>
    ensures found { IfSome result (λ number. IsEnd text.now number) }
    ensures only { (number : ℤ) → IsEnd text.now number → result ≡ Some number }
{
    let number = read_signed(text)?;
    is_value(number).then_some(number)
}
