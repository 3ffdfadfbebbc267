//! Negatives and absolute values of a range.

ghost use Rattle.std.specs.Prelude.{◌≡◌, ◌≤ℤ◌, pos};
ghost use Rattle.ags_word.specs.Word.{val};
ghost use Rattle.ags_word.specs.Operation.{negative as negative_of, size as size_of};
ghost use Rattle.ags_domain.specs.Hull.{Answers, tried, no_cell};
ghost use Rattle.ags_domain.specs.Candidates.{operands, sign_candidates};
ghost use Rattle.ags_domain.specs.Range.{range_ends, range_meaning};

use crate::hulls::{from_zero, spanned};
use crate::operands::{Operands, one_try};
use crate::ranges::Range;
use ags_word::Word;

/// The negative of a word, or the word where that overflows.
fn negative_at(a: Word) -> Result<Word, Operands>
    ensures { result ≡ tried negative_of (operands a 0 0) }
{
    let (word, overflows) = a.com();
    one_try(word, overflows, a, Word::ZERO, Word::ZERO)
}

/// The negatives of the words of a range.
pub(crate) fn negatives(a: &Range) -> Result<Range, Operands>
    ensures { Answers range_meaning negative_of sign_candidates (range_ends a.now) no_cell result }
{
    spanned(negative_at(a.least), negative_at(a.greatest))
}

/// The absolute value of a word, or the word where that overflows.
fn size_at(a: Word) -> Result<Word, Operands>
    ensures { result ≡ tried size_of (operands a 0 0) }
{
    let (word, overflows) = a.abs();
    one_try(word, overflows, a, Word::ZERO, Word::ZERO)
}

/// The absolute values of a range that has no word of negative value.
fn sizes_above(a: &Range) -> Result<Range, Operands>
    requires { pos 0 ≤ℤ val a.now.least }
    ensures { Answers range_meaning size_of sign_candidates (range_ends a.now) no_cell result }
{
    spanned(size_at(a.greatest), size_at(a.least))
}

/// The absolute values of a range that has no word of a value above 0.
fn sizes_below(a: &Range) -> Result<Range, Operands>
    requires { val a.now.greatest ≤ℤ pos 0 }
    ensures { Answers range_meaning size_of sign_candidates (range_ends a.now) no_cell result }
{
    spanned(size_at(a.least), size_at(a.greatest))
}

/// The absolute values of a range that has the word 0.
fn sizes_across(a: &Range) -> Result<Range, Operands>
    requires least { val a.now.least ≤ℤ pos 0 }
    requires greatest { pos 0 ≤ℤ val a.now.greatest }
    ensures { Answers range_meaning size_of sign_candidates (range_ends a.now) no_cell result }
{
    from_zero(size_at(a.least), size_at(a.greatest))
}

/// The absolute values of the words of a range.
pub(crate) fn sizes(a: &Range) -> Result<Range, Operands>
    ensures { Answers range_meaning size_of sign_candidates (range_ends a.now) no_cell result }
{
    if 0 <= a.least.value() {
        sizes_above(a)
    } else if a.greatest.value() <= 0 {
        sizes_below(a)
    } else {
        sizes_across(a)
    }
}
