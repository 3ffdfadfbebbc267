//! The columns of a line that have a place and a word.

ghost use Rattle.std.specs.Prelude.{◌≡◌, ◌<◌, length, IfSome};
ghost use Rattle.ags_image.specs.Image.{memory_size};
ghost use Rattle.ags_image.specs.Columns.{placed_in};
ghost use Rattle.ags_image.specs.Form.{placed_of};

use ags_text::read_octal;
use ags_word::Word;

/// The word at its place that a column of four digits and one of six write, and nothing where one has another byte than an
/// octal digit.
pub fn read_columns(place: &[u8], word: &[u8]) -> Option<(u16, Word)>
    requires four { length place.now ≡ 4 }
    requires six { length word.now ≡ 6 }
    ensures placed { placed_of result ≡ placed_in place.now word.now }
    ensures within { IfSome result (λ placed. placed.0 < memory_size) }
{
    let location = read_octal(place)?;
    let word = Word::read_octal(word)?;
    Some((location as u16, word))
}
