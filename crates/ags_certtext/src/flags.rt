//! The digits of a row's indices and indicators.

ghost use Rattle.std.specs.Prelude.{◌≡◌, ℕ, true, false, Bool, List, IfSome, Some};
ghost use Rattle.ags_certtext.specs.Front.{AreFlags, digit_front};

/// How many values the index register has.
const INDICES: usize = 8;

/// Whether a text begins with this byte, and what stands after it; the whole text where it doesn't.
fn split_digit(digit: u8, text: &[u8]) -> (bool, &[u8])
    ensures whole { text.now ≡ digit_front digit result.0 result.1.now }
    ensures other { result.0 ≡ false → (rest : List ℕ) → text.now ≡ digit_front digit true rest → ⊥ }
{
    match text {
        [first, rest @ ..] => {
            if *first == digit {
                (true, rest)
            } else {
                (false, text)
            }
        }
        _ => (false, text),
    }
}

/// The indices whose digits these are: from 0 to 7, one at least, and each above the one before it.
pub(crate) fn read_indices(text: &[u8]) -> Option<[bool; 8]>
    ensures found { IfSome result (λ flags. AreFlags 8 text.now flags) }
    ensures only { (flags : List Bool) → AreFlags 8 text.now flags → result ≡ Some flags }
{
    if text.is_empty() {
        return None;
    }
    let mut flags = [false; INDICES];
    let mut rest = text;
    for index in 0..INDICES {
        let (set, behind) = split_digit(b'0' + index as u8, rest);
        flags[index] = set;
        rest = behind;
    }
    if rest.is_empty() { Some(flags) } else { None }
}

/// The indicators whose digits these are: clear, set, or both.
pub(crate) fn read_indicators(text: &[u8]) -> Option<[bool; 2]>
    ensures found { IfSome result (λ flags. AreFlags 2 text.now flags) }
    ensures only { (flags : List Bool) → AreFlags 2 text.now flags → result ≡ Some flags }
{
    if text.is_empty() {
        return None;
    }
    let (clear, behind) = split_digit(b'0', text);
    let (set, rest) = split_digit(b'1', behind);
    if rest.is_empty() {
        Some([clear, set])
    } else {
        None
    }
}
