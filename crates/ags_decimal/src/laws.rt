//! What a decimal's definitions mean, over every text and every decimal.

ghost use Rattle.std.specs.Prelude.{◌≡◌, ℕ, ◌<◌, not, List, Some, neg_ℤ};
ghost use Rattle.ags_decimal.specs.Decimal.{Parts, numerator, denominator, nearest_size, nearest_value, IsNearestSize};
ghost use Rattle.ags_decimal.specs.Reading.{reading};
ghost use Rattle.ags_decimal.specs.Spelling.{Spells};

/// What is read from a text is the decimal that it spells, and each text that spells a decimal is read as it. So no text
/// spells two decimals.
pub fn reading_is_spelling()
    ensures spells { (text : List ℕ) (parts : Parts) → reading text ≡ Some parts → Spells text parts }
    ensures is_read { (text : List ℕ) (parts : Parts) → Spells text parts → reading text ≡ Some parts }
{}

/// The size of a decimal's rounded value is the nearest to its exact size, a half going away from zero; no other number
/// is so near; and the decimal with the other sign has the negated value.
pub fn word_is_nearest()
    ensures fraction { (parts : Parts) → 0 < denominator parts }
    ensures nearest { (parts : Parts) → IsNearestSize (numerator parts) (denominator parts) (nearest_size parts) }
    ensures one { (n d one other : ℕ) → IsNearestSize n d one → IsNearestSize n d other → one ≡ other }
    ensures negative { (parts : Parts) → nearest_value (record parts { negative = not parts.negative }) ≡ neg_ℤ (nearest_value parts) }
{}
