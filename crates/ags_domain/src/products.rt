//! Products of two ranges.

ghost use Rattle.std.specs.Prelude.{◌≡◌};
ghost use Rattle.ags_word.specs.Operation.{product_high as product_high_of, product_rounded as product_rounded_of};
ghost use Rattle.ags_domain.specs.Hull.{Answers, tried};
ghost use Rattle.ags_domain.specs.Candidates.{operands, product_candidates};
ghost use Rattle.ags_domain.specs.Range.{range_ends, range_meaning};

use crate::hulls::around_tries;
use crate::operands::{Operands, one_try};
use crate::ranges::Range;
use ags_word::Word;

/// The A that a product sets, or the words where it overflows.
fn product_high_at(a: Word, m: Word) -> Result<Word, Operands>
    ensures { result ≡ tried product_high_of (operands a 0 m) }
{
    let (high, _low, overflows) = a.multiply(m);
    one_try(high, overflows, a, Word::ZERO, m)
}

/// The A of the products of the words of two ranges.
pub(crate) fn products_high(a: &Range, m: &Range) -> Result<Range, Operands>
    ensures { Answers range_meaning product_high_of product_candidates (range_ends a.now) (range_ends m.now) result }
{
    around_tries(
        product_high_at(a.least, m.least),
        product_high_at(a.least, m.greatest),
        product_high_at(a.greatest, m.least),
        product_high_at(a.greatest, m.greatest),
    )
}

/// The rounded product, or the words where it overflows.
fn product_rounded_at(a: Word, m: Word) -> Result<Word, Operands>
    ensures { result ≡ tried product_rounded_of (operands a 0 m) }
{
    let (rounded, _low, overflows) = a.multiply_round(m);
    one_try(rounded, overflows, a, Word::ZERO, m)
}

/// The rounded products of the words of two ranges.
pub(crate) fn products_rounded(a: &Range, m: &Range) -> Result<Range, Operands>
    ensures { Answers range_meaning product_rounded_of product_candidates (range_ends a.now) (range_ends m.now) result }
{
    around_tries(
        product_rounded_at(a.least, m.least),
        product_rounded_at(a.least, m.greatest),
        product_rounded_at(a.greatest, m.least),
        product_rounded_at(a.greatest, m.greatest),
    )
}
