//! Sums and differences of two ranges.

ghost use Rattle.std.specs.Prelude.{◌≡◌};
ghost use Rattle.ags_word.specs.Operation.{sum as sum_of, difference as difference_of};
ghost use Rattle.ags_domain.specs.Hull.{Answers, tried};
ghost use Rattle.ags_domain.specs.Candidates.{operands, sum_candidates, difference_candidates};
ghost use Rattle.ags_domain.specs.Range.{range_ends, range_meaning};

use crate::hulls::spanned;
use crate::operands::{Operands, one_try};
use crate::ranges::Range;
use ags_word::Word;

/// The sum of two words, or both where it overflows.
fn sum_at(a: Word, m: Word) -> Result<Word, Operands>
    ensures { result ≡ tried sum_of (operands a 0 m) }
{
    let (word, overflows) = a.add(m);
    one_try(word, overflows, a, Word::ZERO, m)
}

/// The sums of the words of two ranges.
pub(crate) fn sum(a: &Range, m: &Range) -> Result<Range, Operands>
    ensures { Answers range_meaning sum_of sum_candidates (range_ends a.now) (range_ends m.now) result }
{
    spanned(sum_at(a.greatest, m.greatest), sum_at(a.least, m.least))
}

/// One word less another, or both where that overflows.
fn difference_at(a: Word, m: Word) -> Result<Word, Operands>
    ensures { result ≡ tried difference_of (operands a 0 m) }
{
    let (word, overflows) = a.sub(m);
    one_try(word, overflows, a, Word::ZERO, m)
}

/// The words of one range less those of another.
pub(crate) fn difference(a: &Range, m: &Range) -> Result<Range, Operands>
    ensures { Answers range_meaning difference_of difference_candidates (range_ends a.now) (range_ends m.now) result }
{
    spanned(
        difference_at(a.greatest, m.least),
        difference_at(a.least, m.greatest),
    )
}
