//! Counts of few decimal digits.

ghost use Rattle.std.specs.Prelude.{◌≡◌, ℕ, Some, IfSome};
ghost use Rattle.ags_text.specs.Numeral.{IsDecimal};

use ags_frame::read_size;

/// The most digits of a count.
const MOST_DIGITS: usize = 5;

/// The number that one to five decimal digits write, and nothing for any other text.
pub fn read_count(text: &[u8]) -> Option<u32>
    ensures found { IfSome result (λ count. IsDecimal 5 text.now count) }
    ensures only { (count : ℕ) → IsDecimal 5 text.now count → result ≡ Some count }
{
    if text.len() > MOST_DIGITS {
        return None;
    }
    read_size(text)
}
