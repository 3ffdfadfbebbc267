//! Where a byte stands first in a text, and whether its bytes are digits.

ghost use Rattle.std.specs.Prelude.{◌≡◌, ◌≤◌, ◌==◌, length, position};
ghost use Rattle.std.specs.List.{position_or_len, list_all};
ghost use Rattle.ags_text.specs.Numeral.{is_digit};

/// Where a byte first stands.
pub(crate) fn first_place(text: &[u8], byte: u8) -> Option<usize>
    ensures { result ≡ position (λ b. b == byte) text.now }
{
    text.iter().position(|other| *other == byte)
}

/// How many bytes stand before the first such byte; all of them where there is none.
pub fn front_len(text: &[u8], byte: u8) -> usize
    ensures place { result ≡ position_or_len (λ b. b == byte) text.now }
    ensures within { result ≤ length text.now }
{
    first_place(text, byte).unwrap_or(text.len())
}

/// Whether each byte is a decimal digit, as ASCII has them.
pub fn are_digits(text: &[u8]) -> bool
    ensures { result ≡ list_all is_digit text.now }
{
    text.iter().all(|byte| matches!(*byte, b'0'..=b'9'))
}
