//! How long a source may be, and where it ends (docs/SOURCE.md, Cards).

ghost use Rattle.std.specs.Prelude.{◌≡◌};
ghost use Rattle.ags_places.specs.Deck.{is_end};

use ags_card::Body;

/// The most bytes of a source.
pub const SOURCE_LIMIT: usize = 4_194_304;

/// Whether a card ends the source.
pub fn is_end(body: &Body) -> bool
    ensures { result ≡ is_end body.now }
{
    matches!(body, Body::End)
}
