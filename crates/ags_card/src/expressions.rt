//! Expressions: the terms of a text, each with its sign.

ghost use Rattle.std.specs.Prelude.{◌≡◌, [], ◌+◌, ◌*◌, ◌^◌, ◌<◌, ◌≤◌, ◌==◌, length, take, position, IfSome, Some, None, IfOk, IfErr};
ghost use Rattle.std.specs.List.{position_or_len};
ghost use Rattle.std.specs.Str.Parse.{starts_with_minus, without_leading_sign};
ghost use Rattle.ags_text.specs.Numeral.{number_of};
ghost use Rattle.ags_card.specs.Reading.{atom_reading, is_sign, terms_reading, expression_reading};
ghost use Rattle.ags_card.specs.Term.{AreTerms, HasSmallNumber};

use crate::cards::CardFault;
use crate::names::Name;
use crate::terms::{Atom, MOST_TERMS, Term};
use ags_text::read_octal;

/// The most decimal digits of a number.
const MOST_DIGITS: usize = 6;

/// The number that one to six decimal digits write.
fn read_decimal(text: &[u8]) -> Option<u32>
    ensures same { result ≡ number_of 10 6 text.now }
    ensures most { IfSome result (λ number. number ≤ 999999) }
{
    if text.len() > MOST_DIGITS {
        return None;
    }
    ags_text::read_decimal(text)
}

/// What a text stands for as a term without its sign.
#[tactic(auto, unfolding(crate::specs::Reading::atom_reading))]
fn read_atom(text: &[u8]) -> Option<Atom>
    ensures same { result ≡ atom_reading text.now }
    ensures small { IfSome result HasSmallNumber }
{
    if let [b'/', digits @ ..] = text {
        return match read_octal(digits) {
            Some(number) => Some(Atom::Number(number)),
            None => None,
        };
    }
    if text == b"*".as_slice() {
        return Some(Atom::Here);
    }
    if let Some(name) = Name::of(text) {
        return Some(Atom::Symbol(name));
    }
    match read_decimal(text) {
        Some(number) => Some(Atom::Number(number)),
        None => None,
    }
}

/// Where the first sign stands.
fn first_sign(text: &[u8]) -> Option<usize>
    ensures { result ≡ position is_sign text.now }
{
    text.iter().position(|byte| matches!(*byte, b'+' | b'-'))
}

/// How long the front of a text is before its first sign.
fn front_len(text: &[u8]) -> usize
    ensures place { result ≡ position_or_len is_sign text.now }
    ensures within { result ≤ length text.now }
{
    first_sign(text).unwrap_or(text.len())
}

/// Whether a text begins with a minus.
pub(crate) fn begins_with_minus(text: &[u8]) -> bool
    ensures { result ≡ starts_with_minus text.now }
{
    matches!(text, [b'-', ..])
}

/// A text without the sign at its front, if it has one.
pub(crate) fn behind_sign(text: &[u8]) -> &[u8]
    ensures { result.now ≡ without_leading_sign text.now }
{
    match text {
        [b'-', behind @ ..] => behind,
        [b'+', behind @ ..] => behind,
        _ => text,
    }
}

/// Puts the terms of a text, whose first term has that sign, at the front of a list, and tells how many they are.
fn read_terms(minus: bool, text: &[u8], terms: &mut [Term]) -> Result<usize, CardFault>
    requires short { length text.now ≤ 120 }
    requires room { length terms.old ≡ 64 }
    ensures read { IfOk result (λ count. terms_reading minus [] text.now ≡ Some (take count terms.new)) }
    ensures terms { IfOk result (λ count. AreTerms (take count terms.new) × (count ≤ 64)) }
    ensures fault { IfErr result (λ fault. (terms_reading minus [] text.now ≡ None) × (fault ≡ CardFault.BadExpression)) }
{
    let mut minus = minus;
    let mut count = 0;
    let mut rest = text;
    loop {
        let (front, behind) = rest.split_at(front_len(rest));
        let Some(atom) = read_atom(front) else {
            return Err(CardFault::BadExpression);
        };
        terms[count] = Term { minus, atom };
        count += 1;
        if behind.is_empty() {
            return Ok(count);
        }
        minus = begins_with_minus(behind);
        rest = &behind[1..];
    }
}

/// Puts the terms of an expression at the front of a list, and tells how many they are; another text is none (docs/SOURCE.md,
/// Expressions).
#[tactic(auto, unfolding(crate::specs::Reading::expression_reading))]
pub(crate) fn read_expression(text: &[u8], terms: &mut [Term]) -> Result<usize, CardFault>
    requires short { length text.now ≤ 120 }
    requires room { length terms.old ≡ 64 }
    ensures read { IfOk result (λ count. expression_reading text.now ≡ Some (take count terms.new)) }
    ensures terms { IfOk result (λ count. AreTerms (take count terms.new) × (count ≤ 64)) }
    ensures fault { IfErr result (λ fault. (expression_reading text.now ≡ None) × (fault ≡ CardFault.BadExpression)) }
{
    read_terms(begins_with_minus(text), behind_sign(text), terms)
}
