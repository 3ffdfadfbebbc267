//! The lines of a text, which end at line feeds alone.

ghost use Rattle.std.specs.Prelude.{◌≡◌, ◌+◌, ◌≤◌, ◌∷◌, [], length, IfSome, IfNone};
ghost use Rattle.ags_image.specs.Lines.{feed_lines};

use ags_text::front_len;

/// The first line of a text, and what stands after its line feed.
pub(crate) fn split_line(text: &[u8]) -> Option<(&[u8], &[u8])>
    ensures line { IfSome result (λ cut. feed_lines text.now ≡ cut.0.now ∷ feed_lines cut.1.now) }
    ensures less { IfSome result (λ cut. length cut.1.now + 1 ≤ length text.now) }
    ensures none { IfNone result (feed_lines text.now ≡ []) }
{
    if text.is_empty() {
        return None;
    }
    let feed = front_len(text, b'\n');
    if feed < text.len() {
        Some((&text[..feed], &text[feed + 1..]))
    } else {
        Some((text, &text[feed..]))
    }
}
