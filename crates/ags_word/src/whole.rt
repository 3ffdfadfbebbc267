//! Steps over whole numbers that multiply and divide, each within the bounds that words and pairs keep.

ghost use Rattle.std.specs.Prelude.{◌≡◌, ◌≢◌, ◌<◌, ◌^◌, pos, ◌≤ℤ◌, ◌<ℤ◌, ◌*ℤ◌, neg_ℤ};
ghost use Rattle.std.specs.Int.RustNames.{int_div};
ghost use Rattle.ags_word.specs.Long.{shifted_right as shifted_down, wrap_long};

/// Two to the power of a count.
fn power(count: u32) -> i128
    requires { count < 64 }
    ensures { result ≡ pos (2 ^ count) }
{
    i128::from(1u64 << count)
}

/// The product of two numbers of at most 35 and 65 bits.
pub(crate) fn product(n: i128, factor: i128) -> i128
    requires least { neg_ℤ (pos (2 ^ 34)) ≤ℤ n }
    requires most { n ≤ℤ pos (2 ^ 34) }
    requires least_factor { neg_ℤ (pos (2 ^ 64)) ≤ℤ factor }
    requires most_factor { factor ≤ℤ pos (2 ^ 64) }
    ensures { result ≡ n *ℤ factor }
{
    n * factor
}

/// The product with a power of two.
pub(crate) fn shifted_left(n: i64, count: u32) -> i128
    requires least { neg_ℤ (pos (2 ^ 34)) ≤ℤ n }
    requires most { n ≤ℤ pos (2 ^ 34) }
    requires count { count < 64 }
    ensures { result ≡ n *ℤ pos (2 ^ count) }
{
    product(i128::from(n), power(count))
}

/// The quotient by a power of two, rounded down.
pub(crate) fn shifted_right(n: i128, count: u32) -> i128
    requires { count < 64 }
    ensures { result ≡ shifted_down n count }
{
    n.div_euclid(power(count))
}

/// The quotient of a pair's number by a word's value that is not 0, cut off toward zero.
pub(crate) fn quotient(n: i64, divisor: i32) -> i64
    requires least { neg_ℤ (pos (2 ^ 34)) ≤ℤ n }
    requires most { n <ℤ pos (2 ^ 34) }
    requires divisor { divisor ≢ pos 0 }
    ensures { result ≡ int_div n divisor }
{
    n / i64::from(divisor)
}

/// The number of a pair that is left of a whole number.
pub(crate) fn wrapped_long(n: i128) -> i64
    ensures same { result ≡ wrap_long n }
    ensures least { neg_ℤ (pos (2 ^ 34)) ≤ℤ result }
    ensures most { result <ℤ pos (2 ^ 34) }
{
    let rest = n.rem_euclid(34_359_738_368) as i64;
    if rest < 17_179_869_184 {
        rest
    } else {
        rest - 34_359_738_368
    }
}
