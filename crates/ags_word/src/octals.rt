//! Words as octal digits.

ghost use Rattle.std.specs.Prelude.{◌≡◌, ℕ, IfSome, Some};
ghost use Rattle.ags_text.specs.Numeral.{octal6_text, IsOctal};

use crate::words::Word;

impl Word {
    /// The word as the six octal digits that are printed.
    pub fn octal6(self) -> [u8; 6]
        ensures { result ≡ octal6_text self }
    {
        ags_text::octal6(self.number())
    }

    /// The word that one to six octal digits write, and nothing for any other text.
    pub fn read_octal(text: &[u8]) -> Option<Word>
        ensures found { IfSome result (λ w. IsOctal 6 text.now w) }
        ensures only { (number : ℕ) → IsOctal 6 text.now number → result ≡ Some number }
    {
        Word::of(ags_text::read_octal(text)?)
    }
}
