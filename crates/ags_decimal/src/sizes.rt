//! The size of a decimal: its fraction of whole numbers, and that fraction rounded.

ghost use Rattle.std.specs.Prelude.{◌≡◌, ◌+◌, ◌*◌, ◌/◌, ◌<◌, ◌≤◌, ◌^◌, unsigned_abs};
ghost use Rattle.ags_decimal.specs.Decimal.{power_above, power_below, nearest_quotient};

/// A power of a base, above the line of a fraction and below it.
pub(crate) fn sides(base: u64, power: i8) -> (u64, u64)
    requires some { 0 < base }
    requires fits { base ^ unsigned_abs power < 2 ^ 64 }
    ensures above { result.0 ≡ power_above base power }
    ensures below { result.1 ≡ power_below base power }
    ensures some { 0 < result.1 }
    ensures most_above { result.0 ≤ base ^ unsigned_abs power }
    ensures most_below { result.1 ≤ base ^ unsigned_abs power }
{
    let size = base.pow(u32::from(power.unsigned_abs()));
    if power < 0 { (1, size) } else { (size, 1) }
}

/// The product of ten digits, a power of ten and a power of two.
pub(crate) fn product(digits: u64, ten: u64, two: u64) -> u128
    requires digits { digits < 10 ^ 10 }
    requires ten { ten ≤ 10 ^ 12 }
    requires two { two ≤ 2 ^ 47 }
    ensures same { result ≡ digits * ten * two }
    ensures most { result ≤ 10 ^ 10 * 10 ^ 12 * 2 ^ 47 }
{
    u128::from(digits) * u128::from(ten) * u128::from(two)
}

/// A fraction rounded to the nearest whole number, a half upward.
pub(crate) fn nearest_quotient(n: u128, d: u128) -> u128
    requires most { n ≤ 10 ^ 10 * 10 ^ 12 * 2 ^ 47 }
    requires most_divisor { d ≤ 10 ^ 10 * 10 ^ 12 * 2 ^ 47 }
    requires some { 0 < d }
    ensures { result ≡ nearest_quotient n d }
{
    (2 * n + d) / (2 * d)
}
