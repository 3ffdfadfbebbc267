//! What is answered of a budget.

ghost use Rattle.std.specs.Prelude.{◌≡◌};
ghost use Rattle.ags_budget.specs.Over.{over};

use ags_check::Refusal;
use ags_word::Word;

/// A case that needs more time than its row's bound.
#[derive(Clone, Copy)]
pub struct LateCase {
    /// The case's word.
    pub word: Word,
    /// The case's index.
    pub x: u8,
    /// The case's indicator.
    pub v: bool,
    /// The location of the post; DLY has none.
    pub next: Option<u16>,
    /// What the case needs, in microseconds: the order's time, and the least bound of a row that covers the post.
    pub needs: u32,
    /// The row's bound.
    pub bound: u32,
}

/// The answer of the judge.
#[derive(Drop)]
pub enum Timed {
    /// The budget is accepted.
    Within {
        /// How many rows the certificate has.
        rows: u32,
        /// How many cases its rows have.
        cases: u64,
        /// The greatest bound of a row.
        greatest: u32,
    },
    /// The certificate isn't accepted.
    Unsafe(Refusal),
    /// A case is late, and this is the first.
    Over {
        /// The row's number, from 1.
        row: u32,
        /// The case's word.
        word: Word,
        /// The case's index.
        x: u8,
        /// The case's indicator.
        v: bool,
        /// The location of its first late post; DLY has none.
        next: Option<u16>,
        /// What the case needs.
        needs: u32,
        /// The row's bound.
        bound: u32,
    },
}

/// The answer that tells a late case of a row.
pub(crate) fn over(row: u32, late: LateCase) -> Timed
    ensures { result ≡ over row late }
{
    Timed::Over {
        row,
        word: late.word,
        x: late.x,
        v: late.v,
        next: late.next,
        needs: late.needs,
        bound: late.bound,
    }
}
