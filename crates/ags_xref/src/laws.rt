//! The laws of the order of symbols and of the cards that name them. Behind each clause is a lemma of `proofs/`.

ghost use Rattle.std.specs.Prelude.{◌↔◌, ◌<◌, ℕ, List};
ghost use Rattle.std.specs.List.{AllPairs, Contains};
ghost use Rattle.std.specs.List.Sorted.{IsPermutation};
ghost use Rattle.ags_card.specs.declared.cards.Card.{Card};
ghost use Rattle.ags_symbol.specs.Symbol.{Entry, EachNameOnce};
ghost use Rattle.ags_xref.specs.Naming.{NamesIt, naming};
ghost use Rattle.ags_xref.specs.Order.{IsAscending, by_name};

/// Pairs by name are the same pairs, and where no two are of one symbol they ascend strictly by their names.
pub fn pairs_by_name_ascend()
    ensures same { (symbols : List Entry) → IsPermutation symbols (by_name symbols) }
    ensures ascend { (symbols : List Entry) → EachNameOnce symbols → IsAscending (by_name symbols) }
{}

/// The cards that are told to name a symbol ascend strictly by their numbers, and are exactly those whose operand names it.
pub fn naming_cards_ascend()
    ensures ascend { (cards : List Card) (name : List ℕ) → AllPairs (λ one other. one < other) (naming cards name) }
    ensures exactly { (cards : List Card) (name : List ℕ) (number : ℕ) → Contains (naming cards name) number ↔ NamesIt cards name number }
{}
