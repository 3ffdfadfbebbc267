//! Scales, and the tags of rows, as fields of a line.

ghost use Rattle.std.specs.Prelude.{◌≡◌, ℤ, true, false, IfSome, Some};
ghost use Rattle.ags_tags.specs.declared.tags.RowTag.{RowTag};
ghost use Rattle.ags_tags.specs.Spelling.{IsScale, IsRowTag, is_scale};

use crate::tags::{RowTag, Tag};
use ags_certtext::read_signed;

/// The least scale.
const LEAST_SCALE: i32 = -128;

/// The greatest scale.
const GREATEST_SCALE: i32 = 127;

/// Whether a number is a scale.
fn is_scale(number: i32) -> bool
    ensures { result ≡ is_scale number }
{
    LEAST_SCALE <= number && number <= GREATEST_SCALE
}

/// The scale that a text writes, and nothing where the number is no scale.
pub(crate) fn read_scale(text: &[u8]) -> Option<i8>
    ensures found { IfSome result (λ scale. IsScale text.now scale) }
    ensures only { (scale : ℤ) → IsScale text.now scale → result ≡ Some scale }
{
    let number = read_signed(text)?;
    if is_scale(number) {
        Some(number as i8)
    } else {
        None
    }
}

/// Whether a text is a word, letter for letter.
fn is_word(text: &[u8], word: &[u8]) -> bool
    ensures same { result ≡ true → text.now ≡ word.now }
    ensures other { result ≡ false → text.now ≡ word.now → ⊥ }
{
    text == word
}

/// The tag of a row that a text writes.
pub(crate) fn read_row_tag(text: &[u8]) -> Option<RowTag>
    ensures found { IfSome result (IsRowTag text.now) }
    ensures only { (tag : RowTag) → IsRowTag text.now tag → result ≡ Some tag }
{
    if is_word(text, b"ANY") {
        return Some(RowTag::Any);
    }
    if is_word(text, b"RAW") {
        return Some(RowTag::Known(Tag::Raw));
    }
    match read_scale(text) {
        Some(scale) => Some(RowTag::Known(Tag::Scale(scale))),
        None => None,
    }
}
