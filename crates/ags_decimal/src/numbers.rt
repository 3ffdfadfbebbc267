//! The numbers in a decimal's text.

ghost use Rattle.std.specs.Prelude.{◌≡◌, ◌+◌, ◌<◌, ◌≤◌, ◌^◌, pos, neg_ℤ, ◌≤ℤ◌, length, IsTrue, IfSome};
ghost use Rattle.std.specs.List.{list_all};
ghost use Rattle.ags_decimal.specs.Spelling.{is_digit, number_after, digits_number};
ghost use Rattle.ags_decimal.specs.Reading.{signed_reading, marked_reading};

use crate::marks::{begins_with_minus, behind_first, behind_sign};
use ags_text::are_digits;

/// The number that digits write after those of a number, of which there are so many.
pub(crate) fn number_after(start: u64, before: usize, text: &[u8]) -> u64
    requires start { start < 10 ^ before }
    requires most { before + length text.now ≤ 10 }
    requires digits { IsTrue (list_all is_digit text.now) }
    ensures same { result ≡ number_after start text.now }
    ensures below { result < 10 ^ (before + length text.now) }
{
    let mut number = start;
    for byte in text {
        number = number * 10 + u64::from(*byte - b'0');
    }
    number
}

/// The number that one or two digits write.
fn small_number(text: &[u8]) -> i8
    requires most { length text.now ≤ 2 }
    requires digits { IsTrue (list_all is_digit text.now) }
    ensures same { result ≡ pos (digits_number text.now) }
    ensures most { result ≤ℤ pos 99 }
{
    number_after(0, 0, text) as i8
}

/// The number that an optional sign and one or two digits write.
#[tactic(auto, unfolding(crate::specs::Reading::signed_reading))]
fn read_signed(text: &[u8]) -> Option<i8>
    ensures same { result ≡ signed_reading text.now }
    ensures least { IfSome result (λ n. neg_ℤ (pos 99) ≤ℤ n) }
    ensures most { IfSome result (λ n. n ≤ℤ pos 99) }
{
    let digits = behind_sign(text);
    if !are_digits(digits) || digits.is_empty() || digits.len() > 2 {
        return None;
    }
    let size = small_number(digits);
    if begins_with_minus(text) {
        Some(-size)
    } else {
        Some(size)
    }
}

/// The number after a mark, and the usual one where nothing stands.
#[tactic(auto, unfolding(crate::specs::Reading::marked_reading))]
pub(crate) fn read_marked(usual: i8, rest: &[u8]) -> Option<i8>
    requires least { pos 0 ≤ℤ usual }
    requires most { usual ≤ℤ pos 99 }
    ensures same { result ≡ marked_reading usual rest.now }
    ensures least { IfSome result (λ n. neg_ℤ (pos 99) ≤ℤ n) }
    ensures most { IfSome result (λ n. n ≤ℤ pos 99) }
{
    if rest.is_empty() {
        return Some(usual);
    }
    read_signed(behind_first(rest))
}
