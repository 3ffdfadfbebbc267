//! Shifts of a range: of A alone, and of the pair of A and any Q.

ghost use Rattle.std.specs.Prelude.{◌≡◌, ◌<◌, ◌-◌};
ghost use Rattle.ags_word.specs.Operation.{left_shift as left_shift_by, long_left_high as long_left_by, long_right_high as long_right_by};
ghost use Rattle.ags_domain.specs.Hull.{Answers, IsInterval, tried, no_cell, new_a_at};
ghost use Rattle.ags_domain.specs.Candidates.{operands, left_shift_candidates, long_left_candidates};
ghost use Rattle.ags_domain.specs.Range.{range_ends, range_meaning};

use crate::hulls::spanned;
use crate::named_words::low_bits;
use crate::operands::{Operands, one_try};
use crate::ranges::Range;
use ags_word::{Long, Word};

/// A word shifted to the left, or the word where that overflows.
fn left_shift_at(a: Word, count: u32) -> Result<Word, Operands>
    requires { count < 64 }
    ensures { result ≡ tried (left_shift_by count) (operands a 0 0) }
{
    let (word, overflows) = a.als(count);
    one_try(word, overflows, a, Word::ZERO, Word::ZERO)
}

/// The words of a range shifted to the left.
pub(crate) fn left_shifts(a: &Range, count: u32) -> Result<Range, Operands>
    requires { count < 64 }
    ensures { Answers range_meaning (left_shift_by count) left_shift_candidates (range_ends a.now) no_cell result }
{
    spanned(
        left_shift_at(a.greatest, count),
        left_shift_at(a.least, count),
    )
}

/// The A of a pair that is shifted to the left, or the pair where that overflows.
fn long_left_at(a: Word, q: Word, count: u32) -> Result<Word, Operands>
    requires { count < 64 }
    ensures { result ≡ tried (long_left_by count) (operands a q 0) }
{
    let (long, overflows) = Long::of(a, q).lls(count);
    let (high, _low) = long.split();
    one_try(high, overflows, a, q, Word::ZERO)
}

/// The A of pairs, of the words of a range and any Q, shifted to the left.
pub(crate) fn long_lefts(a: &Range, count: u32) -> Result<Range, Operands>
    requires { count < 64 }
    ensures { Answers range_meaning (long_left_by count) long_left_candidates (range_ends a.now) no_cell result }
{
    spanned(
        long_left_at(a.greatest, low_bits(), count),
        long_left_at(a.least, Word::ZERO, count),
    )
}

/// The A of a pair that is shifted to the right.
fn long_right_at(a: Word, q: Word, count: u32) -> Word
    requires { count < 64 }
    ensures { result ≡ new_a_at (long_right_by count) (operands a q 0) }
{
    let (high, _low) = Long::of(a, q).lrs(count).split();
    high
}

/// The A of pairs, of the words of a range and any Q, shifted to the right.
pub(crate) fn long_rights(a: &Range, count: u32) -> Range
    requires { count < 64 }
    ensures { IsInterval range_meaning (long_right_by count) (range_ends a.now) no_cell result }
{
    Range::spanning(
        long_right_at(a.least, Word::ZERO, count),
        long_right_at(a.greatest, low_bits(), count),
    )
}
