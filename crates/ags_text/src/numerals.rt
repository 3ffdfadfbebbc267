//! Numbers as digits of a fixed width, and octal and decimal digits as numbers.

ghost use Rattle.std.specs.Prelude.{◌≡◌, ℕ, ◌+◌, ◌%◌, ◌<◌, ◌^◌, ◌≤◌, IfSome, Some};
ghost use Rattle.ags_text.specs.Numeral.{numeral, decimal7_text, octal4_text, octal6_text, IsNumber, IsOctal, IsDecimal, Writes, number_of};

/// The most octal digits that are read: those of one word.
const MOST_OCTAL_DIGITS: usize = 6;

/// The most decimal digits that are read.
const MOST_DECIMAL_DIGITS: usize = 9;

/// The last digit of a number in a base of at most ten, as its ASCII byte.
fn last_digit(base: u32, number: u32) -> u8
    requires some { 0 < base }
    requires most { base ≤ 10 }
    ensures { result ≡ 48 + number % base }
{
    b'0' + (number % base) as u8
}

/// The last seven decimal digits of a number, as a card's number is printed, the most significant first.
#[tactic(auto, unfolding(crate::specs::Numeral::numeral))]
pub fn decimal7(number: u32) -> [u8; 7]
    ensures { result ≡ decimal7_text number }
{
    let tens = number / 10;
    let hundreds = tens / 10;
    let thousands = hundreds / 10;
    let ten_thousands = thousands / 10;
    let hundred_thousands = ten_thousands / 10;
    let millions = hundred_thousands / 10;
    [
        last_digit(10, millions),
        last_digit(10, hundred_thousands),
        last_digit(10, ten_thousands),
        last_digit(10, thousands),
        last_digit(10, hundreds),
        last_digit(10, tens),
        last_digit(10, number),
    ]
}

/// The last four octal digits of a number, as a location is printed, the most significant first.
#[tactic(auto, unfolding(crate::specs::Numeral::numeral))]
pub fn octal4(number: u32) -> [u8; 4]
    ensures { result ≡ octal4_text number }
{
    let eights = number / 8;
    let sixty_fours = eights / 8;
    let five_hundred_twelves = sixty_fours / 8;
    [
        last_digit(8, five_hundred_twelves),
        last_digit(8, sixty_fours),
        last_digit(8, eights),
        last_digit(8, number),
    ]
}

/// The last six octal digits of a number, as a word is printed, the most significant first.
#[tactic(auto, unfolding(crate::specs::Numeral::numeral))]
pub fn octal6(number: u32) -> [u8; 6]
    ensures { result ≡ octal6_text number }
{
    let [fourth, third, second, first] = octal4(number);
    let upper = number / 4096;
    [
        last_digit(8, upper / 8),
        last_digit(8, upper),
        fourth,
        third,
        second,
        first,
    ]
}

/// The digits of a number that fits write that number, in each base up to ten.
pub fn numeral_writes()
    ensures { (base width number : ℕ) → 0 < base → base ≤ 10 → number < base ^ width
        → Writes base width (numeral base width number) number }
{}

/// The number that the digits of a text write in a base, where they are not too many, and nothing for any other text.
fn read_digits(base: u32, most: usize, text: &[u8]) -> Option<u32>
    requires low { 2 ≤ base }
    requires high { base ≤ 36 }
    requires room { base ^ most ≤ 2 ^ 32 }
    ensures found { IfSome result (λ number. IsNumber base most text.now number) }
    ensures only { (number : ℕ) → IsNumber base most text.now number → result ≡ Some number }
    ensures below { IfSome result (λ number. number < base ^ most) }
{
    if text.is_empty() || text.len() > most {
        return None;
    }
    let mut number = 0u32;
    for byte in text {
        let digit = char::from(*byte).to_digit(base)?;
        number = number * base + digit;
    }
    Some(number)
}

/// The number that one to six octal digits write, and nothing for any other text: no sign, no blank, no other digit
/// stands among them (docs/SOURCE.md, Cards).
pub fn read_octal(text: &[u8]) -> Option<u32>
    ensures found { IfSome result (λ number. IsOctal 6 text.now number) }
    ensures only { (number : ℕ) → IsOctal 6 text.now number → result ≡ Some number }
    ensures below { IfSome result (λ number. number < 2 ^ 18) }
    ensures same { result ≡ number_of 8 6 text.now }
{
    read_digits(8, MOST_OCTAL_DIGITS, text)
}

/// The number that one to nine decimal digits write, which may begin with zeros, and nothing for any other text
/// (docs/SCRIPT.md).
pub fn read_decimal(text: &[u8]) -> Option<u32>
    ensures found { IfSome result (λ number. IsDecimal 9 text.now number) }
    ensures only { (number : ℕ) → IsDecimal 9 text.now number → result ≡ Some number }
    ensures same { result ≡ number_of 10 9 text.now }
{
    read_digits(10, MOST_DECIMAL_DIGITS, text)
}
