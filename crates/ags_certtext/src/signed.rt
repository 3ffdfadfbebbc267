//! Signed numbers, and the offsets of links.

ghost use Rattle.std.specs.Prelude.{◌≡◌, ◌∷◌, ℕ, ℤ, List, IfSome, IfNone, Some};
ghost use Rattle.ags_certtext.specs.Spelling.{IsSigned, is_offset};
ghost use Rattle.ags_certtext.specs.Front.{IsOffset};

use ags_frame::read_size;

/// The greatest difference of two words' values.
const MOST_OFFSET: i32 = 262_143;

/// What stands after a minus, where a text begins with one.
fn behind_minus(text: &[u8]) -> Option<&[u8]>
    ensures found { IfSome result (λ digits. text.now ≡ 45 ∷ digits.now) }
    ensures none { IfNone result ((digits : List ℕ) → text.now ≡ 45 ∷ digits → ⊥) }
{
    match text {
        [b'-', digits @ ..] => Some(digits),
        _ => None,
    }
}

/// The number that a minus or nothing, and one to six decimal digits, write (docs/CERTIFICATE.md, Values).
pub fn read_signed(text: &[u8]) -> Option<i32>
    ensures found { IfSome result (λ number. IsSigned text.now number) }
    ensures only { (number : ℤ) → IsSigned text.now number → result ≡ Some number }
{
    match behind_minus(text) {
        Some(digits) => read_size(digits).map(|size| -(size as i32)),
        None => read_size(text).map(|size| size as i32),
    }
}

/// Whether a number is a difference of two words' values.
fn is_offset(number: i32) -> bool
    ensures { result ≡ is_offset number }
{
    -MOST_OFFSET <= number && number <= MOST_OFFSET
}

/// The offset of a link that a text writes, and nothing where that is no difference of two words' values.
pub(crate) fn read_offset(text: &[u8]) -> Option<i32>
    ensures found { IfSome result (λ number. IsOffset text.now number) }
    ensures only { (number : ℤ) → IsOffset text.now number → result ≡ Some number }
{
    let number = read_signed(text)?;
    is_offset(number).then_some(number)
}
