//! The numbers of a certificate's lines, which have so many digits and no fewer.

ghost use Rattle.std.specs.Prelude.{◌≡◌, ◌<◌, ℕ, Some, IfSome};
ghost use Rattle.ags_text.specs.Numeral.{Writes};

use ags_word::Word;

/// The address that four octal digits write, and nothing for any other text.
pub fn read_address(text: &[u8]) -> Option<u16>
    ensures found { IfSome result (λ address. Writes 8 4 text.now address) }
    ensures only { (address : ℕ) → Writes 8 4 text.now address → result ≡ Some address }
    ensures below { IfSome result (λ address. address < 4096) }
{
    if text.len() != 4 {
        return None;
    }
    let number = ags_text::read_octal(text)?;
    Some(number as u16)
}

/// The word that six octal digits write, and nothing for any other text.
pub fn read_word(text: &[u8]) -> Option<Word>
    ensures found { IfSome result (λ word. Writes 8 6 text.now word) }
    ensures only { (word : ℕ) → Writes 8 6 text.now word → result ≡ Some word }
{
    if text.len() != 6 {
        return None;
    }
    Word::read_octal(text)
}
