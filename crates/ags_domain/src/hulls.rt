//! Ranges from the words at their corners.

ghost use Rattle.std.specs.Prelude.{◌≡◌, ◌<◌, ◌≤ℤ◌, ℕ, Ok, pos};
ghost use Rattle.ags_word.specs.Word.{val};
ghost use Rattle.ags_domain.specs.Range.{range_ends, lesser, greater, hull_of, ends_of};
ghost use Rattle.ags_domain.specs.Corners.{IsSpanned, IsFromZero, IsAround, ends_of_four};

use crate::operands::Operands;
use crate::ranges::Range;
use ags_word::Word;

/// The word of lesser value.
pub(crate) fn lesser_word(x: Word, y: Word) -> Word
    ensures { result ≡ lesser x y }
{
    if x.value() <= y.value() { x } else { y }
}

/// The word of greater value.
pub(crate) fn greater_word(x: Word, y: Word) -> Word
    ensures { result ≡ greater x y }
{
    if x.value() <= y.value() { y } else { x }
}

/// The range of two words in any order.
pub(crate) fn over(x: Word, y: Word) -> Range
    ensures { range_ends result ≡ ends_of (lesser x y) (greater x y) }
{
    Range::spanning(lesser_word(x, y), greater_word(x, y))
}

/// The least range that two are within.
pub(crate) fn hull(left: &Range, right: &Range) -> Range
    ensures { range_ends result ≡ hull_of (range_ends left.now) (range_ends right.now) }
{
    Range::spanning(
        lesser_word(left.least, right.least),
        greater_word(left.greatest, right.greatest),
    )
}

/// The range of four words.
pub(crate) fn around(first: Word, second: Word, third: Word, fourth: Word) -> Range
    ensures { range_ends result ≡ ends_of_four first second third fourth }
{
    hull(&over(first, second), &over(third, fourth))
}

/// The range of two words that were tried, the greater first, or the first operands that overflow.
pub(crate) fn spanned(
    greatest: Result<Word, Operands>,
    least: Result<Word, Operands>,
) -> Result<Range, Operands>
    requires { (l g : ℕ) → least ≡ Ok l → greatest ≡ Ok g → val l ≤ℤ val g }
    ensures { IsSpanned greatest least result }
{
    match greatest {
        Err(operands) => Err(operands),
        Ok(greatest) => match least {
            Err(operands) => Err(operands),
            Ok(least) => Ok(Range::spanning(least, greatest)),
        },
    }
}

/// The range from 0 to the greater of two sizes that were tried, or the first operands that overflow.
pub(crate) fn from_zero(
    first: Result<Word, Operands>,
    second: Result<Word, Operands>,
) -> Result<Range, Operands>
    requires { (f s : ℕ) → first ≡ Ok f → second ≡ Ok s → pos 0 ≤ℤ val (greater f s) }
    ensures { IsFromZero first second result }
{
    match first {
        Err(operands) => Err(operands),
        Ok(first) => match second {
            Err(operands) => Err(operands),
            Ok(second) => Ok(Range::spanning(Word::ZERO, greater_word(first, second))),
        },
    }
}

/// The range of four words that were tried, or the first operands that overflow.
pub(crate) fn around_tries(
    first: Result<Word, Operands>,
    second: Result<Word, Operands>,
    third: Result<Word, Operands>,
    fourth: Result<Word, Operands>,
) -> Result<Range, Operands>
    ensures { IsAround first second third fourth result }
{
    Ok(around(first?, second?, third?, fourth?))
}
