//! Numbers of few decimal digits.

ghost use Rattle.std.specs.Prelude.{◌≡◌, ◌<◌, ℕ, Some, IfSome};
ghost use Rattle.ags_text.specs.Numeral.{IsDecimal};

/// The most digits of a decimal number.
const MOST_DIGITS: usize = 6;

/// The number that one to six decimal digits write, and nothing for any other text.
pub fn read_size(text: &[u8]) -> Option<u32>
    ensures found { IfSome result (λ size. IsDecimal 6 text.now size) }
    ensures only { (size : ℕ) → IsDecimal 6 text.now size → result ≡ Some size }
    ensures below { IfSome result (λ size. size < 1000000) }
{
    if text.len() > MOST_DIGITS {
        return None;
    }
    let size = ags_text::read_decimal(text)?;
    Some(size)
}
