//! Orders that wait for a symbol that a later card may define.

use ags_isa::Order;
use ags_places::WordFault;
use ags_symbol::OpenTerms;
use ags_word::Word;
use std::marker::Model;

/// An order whose operand isn't known yet.
#[derive(Drop)]
pub(crate) struct FixUp {
    /// The number of its card.
    pub(crate) card: u32,
    /// Its place, below 4096.
    pub(crate) place: u16,
    /// The order.
    pub(crate) order: Order,
    /// Whether its index bit is set.
    pub(crate) indexed: bool,
    /// The sum of those terms of its operand that are known.
    pub(crate) sum: i32,
    /// The other terms.
    pub(crate) rest: OpenTerms,
}

impl Model for FixUp {
    ghost use Rattle.ags_asm.specs.Waiting.{Waiting, AreOpen};

    ghost Value = { Waiting };

    ghost view = { λ f. record { card = f.card; place = f.place; order = f.order; indexed = f.indexed; sum = f.sum; rest = f.rest } };

    ghost invariant = { λ f. AreOpen f.place f.sum f.rest };
}

/// What the word of an order is made as, as far as the symbols are known.
#[derive(Drop)]
pub(crate) enum Made {
    /// It is this one.
    Word(Word),
    /// It waits.
    Waits(FixUp),
    /// It has this fault.
    Fault(WordFault),
}
