//! A text cut at a mark, and without its sign.

ghost use Rattle.std.specs.Prelude.{◌≡◌, ◌==◌, drop, get_or};
ghost use Rattle.ags_decimal.specs.Reading.{front_at, rest_at, begins_with_minus, behind_sign};

use ags_text::front_len;

/// The front of a text before the first such byte, and the text from that byte on. Without one all is front.
#[tactic(auto, unfolding(crate::specs::Reading::front_at, crate::specs::Reading::rest_at))]
pub(crate) fn split_at_mark(text: &[u8], mark: u8) -> (&[u8], &[u8])
    ensures front { result.0.now ≡ front_at mark text.now }
    ensures rest { result.1.now ≡ rest_at mark text.now }
{
    text.split_at(front_len(text, mark))
}

/// A text without its first byte, if it has one.
pub(crate) fn behind_first(text: &[u8]) -> &[u8]
    ensures { result.now ≡ drop 1 text.now }
{
    if text.is_empty() { text } else { &text[1..] }
}

/// Whether a text begins with a minus.
pub(crate) fn begins_with_minus(text: &[u8]) -> bool
    ensures { result ≡ begins_with_minus text.now }
{
    !text.is_empty() && text[0] == b'-'
}

/// Whether a text begins with a plus.
fn begins_with_plus(text: &[u8]) -> bool
    ensures { result ≡ (get_or text.now 0 0 == 43) }
{
    !text.is_empty() && text[0] == b'+'
}

/// A text without the sign at its front, if it has one.
#[tactic(auto, unfolding(crate::specs::Reading::behind_sign))]
pub(crate) fn behind_sign(text: &[u8]) -> &[u8]
    ensures { result.now ≡ behind_sign text.now }
{
    if begins_with_minus(text) || begins_with_plus(text) {
        behind_first(text)
    } else {
        text
    }
}
