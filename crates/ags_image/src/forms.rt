//! What a line of a text looks like.

ghost use Rattle.std.specs.Prelude.{◌≡◌, ℕ, List, Option};
ghost use Rattle.ags_image.specs.Image.{PlacedWord};
ghost use Rattle.ags_image.specs.Form.{entry_of, IsInMemory};

use ags_word::Word;

/// The form of a text's lines.
pub trait LineForm {
    /// What a line says: nothing where it hasn't the form, and else the word that it puts at a place, if it puts one.
    ghost form: { List ℕ → Option (Option PlacedWord) };

    /// Reads a line, without its line feed.
    fn read(line: &[u8]) -> Option<Option<(u16, Word)>>
        ensures form { entry_of result ≡ form line.now }
        ensures within { IsInMemory result };
}
