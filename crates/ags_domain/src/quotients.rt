//! Quotients of a range, as the A of a pair with any Q, by a range.

ghost use Rattle.std.specs.Prelude.{◌≡◌, true, false};
ghost use Rattle.ags_word.specs.Operation.{quotient as quotient_of};
ghost use Rattle.ags_domain.specs.Hull.{Answers, tried};
ghost use Rattle.ags_domain.specs.Candidates.{operands, has_zero, quotient_candidates};
ghost use Rattle.ags_domain.specs.Range.{range_ends, range_meaning};

use crate::hulls::around_tries;
use crate::named_words::low_bits;
use crate::operands::Operands;
use crate::ranges::Range;
use ags_word::{Long, Word};

/// The quotient of a pair by a word, or the three where it overflows.
fn quotient_at(a: Word, q: Word, m: Word) -> Result<Word, Operands>
    ensures { result ≡ tried quotient_of (operands a q m) }
{
    match Long::of(a, q).divide(m) {
        Some(word) => Ok(word),
        None => Err(Operands { a, q, m }),
    }
}

/// Whether a range has the word 0.
fn has_word_zero(range: &Range) -> bool
    ensures { result ≡ has_zero (range_ends range.now) }
{
    range.least.value() <= 0 && 0 <= range.greatest.value()
}

/// The quotients by a range that has the word 0: the least A overflows.
fn quotients_by_zero(a: &Range, m: &Range) -> Result<Range, Operands>
    requires { has_zero (range_ends m.now) ≡ true }
    ensures { Answers range_meaning quotient_of quotient_candidates (range_ends a.now) (range_ends m.now) result }
{
    Err(Operands {
        a: a.least,
        q: Word::ZERO,
        m: Word::ZERO,
    })
}

/// The quotients by a range that has words of positive value alone, or of negative value alone.
fn quotients_by_one_sign(a: &Range, m: &Range) -> Result<Range, Operands>
    requires { has_zero (range_ends m.now) ≡ false }
    ensures { Answers range_meaning quotient_of quotient_candidates (range_ends a.now) (range_ends m.now) result }
{
    around_tries(
        quotient_at(a.least, Word::ZERO, m.least),
        quotient_at(a.least, Word::ZERO, m.greatest),
        quotient_at(a.greatest, low_bits(), m.least),
        quotient_at(a.greatest, low_bits(), m.greatest),
    )
}

/// The quotients of the pairs, of the words of a range and any Q, by the words of another.
pub(crate) fn quotients(a: &Range, m: &Range) -> Result<Range, Operands>
    ensures { Answers range_meaning quotient_of quotient_candidates (range_ends a.now) (range_ends m.now) result }
{
    if has_word_zero(m) {
        quotients_by_zero(a, m)
    } else {
        quotients_by_one_sign(a, m)
    }
}
