//! Decimals: read from their text, and as words.

ghost use Rattle.std.specs.Prelude.{◌≡◌, ◌≤ℤ◌, ◌<◌, ◌≤◌, ◌+◌, ◌^◌, true, false, IfSome, Some, None, IsTrue, pos, ◌++◌, length};
ghost use Rattle.std.specs.List.{list_all};
ghost use Rattle.ags_decimal.specs.Spelling.{is_digit, are_digits, digits_number};
ghost use Rattle.ags_decimal.specs.Decimal.{IsWithinLimits, nearest_size, decimal_word};
ghost use Rattle.ags_decimal.specs.Reading.{reading, digits_of, places_of, reading_before_scale, limited};

use crate::marks::{begins_with_minus, behind_first, behind_sign, split_at_mark};
use crate::numbers::{number_after, read_marked};
use crate::sizes::{nearest_quotient, product, sides};
use ags_text::are_digits;
use ags_word::Word;
use std::marker::Model;

/// A decimal number with its binary scale (docs/SOURCE.md, DEC): at most ten digits, a power of ten from -12 to 12, and
/// a scale from -30 to 60.
#[derive(Clone, Copy)]
pub struct Decimal {
    digits: u64,
    power: i8,
    scale: i8,
    negative: bool,
}

impl Model for Decimal {
    ghost use Rattle.ags_decimal.specs.Decimal.{Parts, IsWithinLimits};

    ghost Value = { Parts };

    ghost view = { λ d. record { negative = d.negative; digits = d.digits; power = d.power; scale = d.scale } };

    ghost invariant = { λ d. IsWithinLimits (record { negative = d.negative; digits = d.digits; power = d.power; scale = d.scale }) };

    ghost inverse = { λ p. record { negative = p.negative; digits = p.digits; power = p.power; scale = p.scale } };
}

impl Default for Decimal {
    ghost use Rattle.ags_decimal.specs.Decimal.{zero};

    ghost is_default = { λ d. d ≡ zero };

    /// The number 0, with the scale that a number has where none is written.
    fn default() -> Decimal {
        Decimal {
            digits: 0,
            power: 0,
            scale: 17,
            negative: false,
        }
    }
}

impl Decimal {
    /// Whether it has a minus sign.
    pub fn negative(&self) -> bool
        ensures { result ≡ self.now.negative }
    {
        self.negative
    }

    /// The number that its digits write, without the sign and the point; below 10^10.
    pub fn digits(&self) -> u64
        ensures same { result ≡ self.now.digits }
        ensures limits { IsWithinLimits self.now }
    {
        self.digits
    }

    /// The power of ten that the digits are times, those after the point counted in; from -12 to 12.
    pub fn power(&self) -> i8
        ensures same { result ≡ self.now.power }
        ensures limits { IsWithinLimits self.now }
    {
        self.power
    }

    /// Its binary scale: how many bits of the word stand before the binary point; from -30 to 60.
    pub fn scale(&self) -> i8
        ensures same { result ≡ self.now.scale }
        ensures limits { IsWithinLimits self.now }
    {
        self.scale
    }
}

/// The size of a decimal, rounded to the nearest whole number.
#[tactic(auto, unfolding(crate::specs::Decimal::nearest_size, crate::specs::Decimal::numerator, crate::specs::Decimal::denominator))]
fn nearest_size(number: &Decimal) -> u128
    ensures { result ≡ nearest_size number.now }
{
    let ten = sides(10, number.power);
    let two = sides(2, 17 - number.scale);
    nearest_quotient(
        product(number.digits, ten.0, two.0),
        product(1, ten.1, two.1),
    )
}

/// The word nearest to a decimal's value at its scale, a half away from zero, and nothing where that is no word's value.
pub fn word(number: &Decimal) -> Option<Word>
    ensures { result ≡ decimal_word number.now }
{
    let size = nearest_size(number);
    if size > 131_072 {
        return None;
    }
    let size = size as i32;
    Word::from_value(if number.negative { -size } else { size })
}

/// A decimal of its parts, and nothing where its power or its scale is out of its limits.
#[tactic(auto, unfolding(crate::specs::Reading::limited))]
fn limited(negative: bool, digits: u64, power: i8, scale: i8) -> Option<Decimal>
    requires { digits < 10 ^ 10 }
    ensures { result ≡ limited (record { negative = negative; digits = digits; power = power; scale = scale }) }
{
    if power < -12 || 12 < power || scale < -30 || 60 < scale {
        return None;
    }
    Some(Decimal {
        negative,
        digits,
        power,
        scale,
    })
}

/// Whether two texts together are one to ten digits.
fn are_number_digits(before: &[u8], behind: &[u8]) -> bool
    ensures same { result ≡ are_digits 10 (before.now ++ behind.now) }
    ensures before { result ≡ true → IsTrue (list_all is_digit before.now) }
    ensures behind { result ≡ true → IsTrue (list_all is_digit behind.now) }
    ensures most { result ≡ true → length before.now + length behind.now ≤ 10 }
{
    if before.len() > 10 || behind.len() > 10 {
        return false;
    }
    let count = before.len() + behind.len();
    are_digits(before) && are_digits(behind) && 0 < count && count <= 10
}

/// The number that digits with a point or without write, and how many of them stand after the point.
#[tactic(auto, unfolding(crate::specs::Reading::digits_of, crate::specs::Reading::places_of))]
fn read_number(text: &[u8]) -> Option<(u64, i8)>
    ensures none { result ≡ None → are_digits 10 (digits_of text.now) ≡ false }
    ensures digits { IfSome result (λ n. are_digits 10 (digits_of text.now) ≡ true) }
    ensures number { IfSome result (λ n. n.0 ≡ digits_number (digits_of text.now)) }
    ensures places { IfSome result (λ n. n.1 ≡ pos (places_of text.now)) }
    ensures below { IfSome result (λ n. n.0 < 10 ^ 10) }
    ensures most { IfSome result (λ n. n.1 ≤ℤ pos 10) }
{
    let (before, rest) = split_at_mark(text, b'.');
    let behind = behind_first(rest);
    if !are_number_digits(before, behind) {
        return None;
    }
    let number = number_after(number_after(0, 0, before), before.len(), behind);
    Some((number, behind.len() as i8))
}

/// The decimal that a text before its scale writes.
#[tactic(auto, unfolding(crate::specs::Reading::reading_before_scale))]
fn read_before_scale(text: &[u8], scale: Option<i8>) -> Option<Decimal>
    ensures { result ≡ reading_before_scale text.now scale }
{
    let (front, rest) = split_at_mark(text, b'E');
    let exponent = read_marked(0, rest)?;
    let scale = scale?;
    let (digits, places) = read_number(behind_sign(front))?;
    limited(begins_with_minus(front), digits, exponent - places, scale)
}

/// The decimal that a text writes, and nothing for any other text: a sign or none, one to ten digits with one point at
/// most, `E` and an exponent of ten or none, `B` and a scale or none, which is 17 where it is left out
/// (docs/SOURCE.md, DEC).
#[tactic(auto, unfolding(crate::specs::Reading::reading))]
pub fn read(text: &[u8]) -> Option<Decimal>
    ensures { result ≡ reading text.now }
{
    let (front, rest) = split_at_mark(text, b'B');
    read_before_scale(front, read_marked(17, rest))
}
