//! What the formulas mean, in the machine's own words. Each law is what a function that does nothing ensures,
//! so that it is proved with the crate. Behind each clause is a lemma of `proofs/`, which the crates above cite.

ghost use Rattle.std.specs.Prelude.{◌≡◌, ◌≢◌, ℕ, ℤ, ◌+◌, ◌%◌, ◌<◌, ◌≤◌, ◌^◌, ◌⊎◌, true, false, pos, ◌+ℤ◌, ◌-ℤ◌, ◌*ℤ◌, ◌≤ℤ◌, ◌<ℤ◌, neg_ℤ, unsigned_abs, int_div, Some, None};
ghost use Rattle.ags_word.specs.Word.{val, fits, wrap, word_of_value, IsCongruent};
ghost use Rattle.ags_word.specs.Long.{long, pair, fits_long, wrap_long, shifted_right, top_bit, divided, IsFloor, IsCutOff, IsNearest};
ghost use Rattle.ags_word.specs.Operation.{product, nearest_product};

/// A word's value is its number below 2^17, and its number less 2^18 from there on, so that it lies from -2^17 to
/// 2^17 - 1; and words of one value are one word.
pub fn value_is_number_or_less()
    ensures low { (w : ℕ) → w < 2 ^ 17 → val w ≡ pos w }
    ensures high { (w : ℕ) → 2 ^ 17 ≤ w → val w ≡ pos w -ℤ pos (2 ^ 18) }
    ensures least { (w : ℕ) → w < 2 ^ 18 → neg_ℤ (pos (2 ^ 17)) ≤ℤ val w }
    ensures most { (w : ℕ) → w < 2 ^ 18 → val w <ℤ pos (2 ^ 17) }
    ensures one { (v w : ℕ) → v < 2 ^ 18 → w < 2 ^ 18 → val v ≡ val w → v ≡ w }
{}

/// A number fits exactly where it lies from -2^17 to 2^17 - 1.
pub fn fitting_numbers_are_a_range()
    ensures inside { (n : ℤ) → neg_ℤ (pos (2 ^ 17)) ≤ℤ n → n <ℤ pos (2 ^ 17) → fits n ≡ true }
    ensures least { (n : ℤ) → fits n ≡ true → neg_ℤ (pos (2 ^ 17)) ≤ℤ n }
    ensures most { (n : ℤ) → fits n ≡ true → n <ℤ pos (2 ^ 17) }
    ensures outside { (n : ℤ) → fits n ≡ false → (n <ℤ neg_ℤ (pos (2 ^ 17))) ⊎ (pos (2 ^ 17) ≤ℤ n) }
{}

/// A number that fits has a word, which is what is left of it, and no other number has one.
pub fn fitting_number_has_a_word()
    ensures some { (n : ℤ) → fits n ≡ true → word_of_value n ≡ Some (wrap n) }
    ensures none { (n : ℤ) → fits n ≡ false → word_of_value n ≡ None }
{}

/// What is left of a whole number is a word, and its value is congruent to the number modulo 2^18.
pub fn wrapping_keeps_congruence()
    ensures below { (n : ℤ) → wrap n < 2 ^ 18 }
    ensures fits { (n : ℤ) → fits (val (wrap n)) ≡ true }
    ensures congruent { (n : ℤ) → IsCongruent (2 ^ 18) (val (wrap n)) n }
    ensures one { (m n : ℤ) → IsCongruent (2 ^ 18) m n → wrap m ≡ wrap n }
{}

/// A word's value fits, and its word is the word.
pub fn value_gives_word_back()
    ensures fits { (w : ℕ) → w < 2 ^ 18 → fits (val w) ≡ true }
    ensures word { (w : ℕ) → w < 2 ^ 18 → wrap (val w) ≡ w }
{}

/// A number that fits is the value of what is left of it.
pub fn fitting_number_is_kept()
    ensures { (n : ℤ) → fits n ≡ true → val (wrap n) ≡ n }
{}

/// To wrap the parts of a sum, a difference or a negative changes nothing of what is left of the whole.
pub fn wrapping_in_steps_wraps_whole()
    ensures sum { (m n : ℤ) → wrap (val (wrap m) +ℤ val (wrap n)) ≡ wrap (m +ℤ n) }
    ensures difference { (m n : ℤ) → wrap (val (wrap m) -ℤ val (wrap n)) ≡ wrap (m -ℤ n) }
    ensures negative { (n : ℤ) → wrap (neg_ℤ (val (wrap n))) ≡ wrap (neg_ℤ n) }
{}

/// A pair's number is in range exactly where it lies from -2^34 to 2^34 - 1.
pub fn numbers_of_pairs_are_a_range()
    ensures inside { (n : ℤ) → neg_ℤ (pos (2 ^ 34)) ≤ℤ n → n <ℤ pos (2 ^ 34) → fits_long n ≡ true }
    ensures least { (n : ℤ) → fits_long n ≡ true → neg_ℤ (pos (2 ^ 34)) ≤ℤ n }
    ensures most { (n : ℤ) → fits_long n ≡ true → n <ℤ pos (2 ^ 34) }
    ensures outside { (n : ℤ) → fits_long n ≡ false → (n <ℤ neg_ℤ (pos (2 ^ 34))) ⊎ (pos (2 ^ 34) ≤ℤ n) }
{}

/// The pair that a whole number sets is two words.
pub fn pair_is_two_words()
    ensures a { (n : ℤ) → (pair n).0 < 2 ^ 18 }
    ensures q { (n : ℤ) → (pair n).1 < 2 ^ 18 }
{}

/// The number of a pair is in range, and a number in range is that of the pair that it sets.
pub fn pair_stands_for_number()
    ensures range { (a q : ℕ) → a < 2 ^ 18 → fits_long (long a q) ≡ true }
    ensures number { (n : ℤ) → fits_long n ≡ true → long (pair n).0 (pair n).1 ≡ n }
{}

/// The pair that a pair's number sets is A, and Q with its top bit turned to A's.
pub fn number_gives_pair_back()
    ensures { (a q : ℕ) → a < 2 ^ 18 → pair (long a q) ≡ (a, top_bit a + q % 2 ^ 17) }
{}

/// A right shift rounds down, and no other number is the quotient rounded down; it stays in range, and two of them are
/// one by the sum of their counts.
pub fn right_shifts_add_up()
    ensures floor { (n : ℤ) (k : ℕ) → IsFloor n (2 ^ k) (shifted_right n k) }
    ensures one { (n one other : ℤ) (divisor : ℕ) → IsFloor n divisor one → IsFloor n divisor other → one ≡ other }
    ensures range { (n : ℤ) (k : ℕ) → fits_long n ≡ true → fits_long (shifted_right n k) ≡ true }
    ensures add { (n : ℤ) (j k : ℕ) → shifted_right (shifted_right n j) k ≡ shifted_right n (j + k) }
{}

/// What is left of a number in a pair is in range, is the number where that is, and is congruent to it modulo 2^35; and of
/// congruent numbers the same is left, so that no other number in range is congruent to it.
pub fn long_wrapping_keeps_congruence()
    ensures range { (n : ℤ) → fits_long (wrap_long n) ≡ true }
    ensures kept { (n : ℤ) → fits_long n ≡ true → wrap_long n ≡ n }
    ensures congruent { (n : ℤ) → IsCongruent (2 ^ 35) (wrap_long n) n }
    ensures one { (m n : ℤ) → IsCongruent (2 ^ 35) m n → wrap_long m ≡ wrap_long n }
{}

/// The negative and the absolute value of a word fit but for the least word, 2^17.
pub fn least_word_alone_overflows()
    ensures negative { (w : ℕ) → w < 2 ^ 18 → fits (neg_ℤ (val w)) ≡ false → w ≡ 2 ^ 17 }
    ensures size { (w : ℕ) → w < 2 ^ 18 → fits (pos (unsigned_abs (val w))) ≡ false → w ≡ 2 ^ 17 }
    ensures least_negative { fits (neg_ℤ (val (2 ^ 17))) ≡ false }
    ensures least_size { fits (pos (unsigned_abs (val (2 ^ 17)))) ≡ false }
{}

/// One product of two words is out of a pair's range: that of the least word with itself.
pub fn one_product_overflows()
    ensures only { (a m : ℕ) → a < 2 ^ 18 → m < 2 ^ 18 → fits_long (val a *ℤ val m) ≡ false
        → (a ≡ 2 ^ 17) × (m ≡ 2 ^ 17) }
    ensures least { fits_long (val (2 ^ 17) *ℤ val (2 ^ 17)) ≡ false }
{}

/// A division's answer is the number over the divisor's value, cut off toward zero, wherever that fits; there is none
/// by 0, and none where that quotient doesn't fit.
pub fn division_cuts_off()
    ensures quotient { (n : ℤ) (m w : ℕ) → divided n m ≡ Some w → IsCutOff n (val m) (val w) }
    ensures some { (n : ℤ) (m : ℕ) → val m ≢ pos 0 → fits (int_div n (val m)) ≡ true
        → divided n m ≡ Some (wrap (int_div n (val m))) }
    ensures exact { (n quotient : ℤ) (m : ℕ) → IsCutOff n (val m) quotient → fits quotient ≡ true
        → divided n m ≡ Some (wrap quotient) }
    ensures none { (n quotient : ℤ) (m : ℕ) → divided n m ≡ None → IsCutOff n (val m) quotient → fits quotient ≡ false }
    ensures zero { (n : ℤ) (m : ℕ) → val m ≡ pos 0 → divided n m ≡ None }
    ensures over { (n : ℤ) (m : ℕ) → fits (int_div n (val m)) ≡ false → divided n m ≡ None }
{}

/// By a divisor that isn't 0 each number has one quotient that is cut off toward zero.
pub fn one_quotient_is_cut_off()
    ensures some { (n divisor : ℤ) → divisor ≢ pos 0 → IsCutOff n divisor (int_div n divisor) }
    ensures one { (n divisor one other : ℤ) → IsCutOff n divisor one → IsCutOff n divisor other → one ≡ other }
{}

/// The product of two words over 2^17 rounds to the nearest whole number, a half going upward: what the product is more
/// than 2^17 times that number lies from -2^16 up to, and not with, 2^16, and no other number is so near.
/// Where the product is a number of a pair, the rounded one fits, so that A never wraps unseen; the one product that is
/// none rounds to a number that doesn't fit.
// It isn't so of every number of a pair: the greatest, 2^34 - 1, would round to 2^17, which doesn't fit. But the greatest
// product that is a number of a pair is 2^34 - 2^17.
pub fn product_rounds_to_nearest()
    ensures nearest { (a m : ℕ) → IsNearest (product a m) (2 ^ 16) (nearest_product a m) }
    ensures one { (n one other : ℤ) (half : ℕ) → IsNearest n half one → IsNearest n half other → one ≡ other }
    ensures fits { (a m : ℕ) → a < 2 ^ 18 → m < 2 ^ 18 → fits_long (product a m) ≡ true
        → fits (nearest_product a m) ≡ true }
    ensures over { (a m : ℕ) → a < 2 ^ 18 → m < 2 ^ 18 → fits_long (product a m) ≡ false
        → fits (nearest_product a m) ≡ false }
{}
