//! Where a piece of a text is cut into lines.

ghost use Rattle.std.specs.Prelude.{◌≡◌, ◌<◌, ◌+◌, ◌++◌, ◌∷◌, None, IfSome, length, take, drop};
ghost use Rattle.ags_text.specs.Line.{HasNoFeed};

use crate::bytes::first_place;

/// Where the first line feed stands.
fn feed_place(text: &[u8]) -> Option<usize>
    ensures within { IfSome result (λ feed. feed < length text.now) }
    ensures front { IfSome result (λ feed. HasNoFeed (take feed text.now)) }
    ensures cut { IfSome result (λ feed. text.now ≡ take feed text.now ++ 10 ∷ drop (feed + 1) text.now) }
    ensures none { result ≡ None → HasNoFeed text.now }
{
    first_place(text, b'\n')
}

/// The bytes before the first line feed, and those after it; and nothing where there is no line feed.
pub fn split_at_feed(text: &[u8]) -> Option<(&[u8], &[u8])>
    ensures front { IfSome result (λ parts. HasNoFeed parts.0.now) }
    ensures cut { IfSome result (λ parts. text.now ≡ parts.0.now ++ 10 ∷ parts.1.now) }
    ensures shorter { IfSome result (λ parts. length parts.1.now < length text.now) }
    ensures none { result ≡ None → HasNoFeed text.now }
{
    let feed = feed_place(text)?;
    Some((&text[..feed], &text[feed + 1..]))
}
