//! The fields after a line's verb.

ghost use Rattle.std.specs.Prelude.{◌≡◌, IfSome, IfNone, Some, None};
ghost use Rattle.ags_script.specs.Operand.{fields_of, octal_of};
ghost use Rattle.ags_script.specs.Reading.{has_no_field, only_field, address_operand, count_operand, word_operand, word_operands};

use crate::numbers::{read_address, read_word};
use ags_text::{are_blanks, read_decimal, split_field};
use ags_word::Word;

/// The address that four octal digits write.
fn address_of(text: &[u8]) -> Option<u16>
    ensures { result ≡ octal_of 4 text.now }
{
    read_address(text)
}

/// The word that six octal digits write.
fn word_of(text: &[u8]) -> Option<Word>
    ensures { result ≡ octal_of 6 text.now }
{
    read_word(text)
}

/// Whether a text has no field.
pub(crate) fn has_no_field(text: &[u8]) -> bool
    ensures { result ≡ has_no_field (fields_of text.now) }
{
    are_blanks(text)
}

/// The only field of a text.
fn only_field(text: &[u8]) -> Option<&[u8]>
    ensures found { IfSome result (λ field. only_field (fields_of text.now) ≡ Some field.now) }
    ensures none { IfNone result (only_field (fields_of text.now) ≡ None) }
{
    let (field, behind) = split_field(text);
    if field.is_empty() {
        return None;
    }
    if are_blanks(behind) {
        Some(field)
    } else {
        None
    }
}

/// The address that a text's only field writes.
pub(crate) fn address_operand(text: &[u8]) -> Option<u16>
    ensures { result ≡ address_operand (fields_of text.now) }
{
    address_of(only_field(text)?)
}

/// The count that a text's only field writes, in one to nine decimal digits, and nothing for any other text.
pub fn count_operand(text: &[u8]) -> Option<u32>
    ensures { result ≡ count_operand (fields_of text.now) }
{
    read_decimal(only_field(text)?)
}

/// The word that a text's only field writes.
fn word_operand(text: &[u8]) -> Option<Word>
    ensures { result ≡ word_operand (fields_of text.now) }
{
    word_of(only_field(text)?)
}

/// The address and the word that a text's two fields write.
#[tactic(auto, using(crate::proofs::FieldLemmas::word_cut))]
pub(crate) fn word_operands(text: &[u8]) -> Option<(u16, Word)>
    ensures { result ≡ word_operands (fields_of text.now) }
{
    let (field, behind) = split_field(text);
    let address = address_of(field)?;
    Some((address, word_operand(behind)?))
}
