//! What it means that a symbol is found among pairs, and what a sum of terms comes to.

ghost use Rattle.std.specs.Prelude.{◌≡◌, ◌≢◌, ◌↔◌, ℕ, ℤ, ◌++◌, List, Some, None};
ghost use Rattle.std.specs.List.{Contains};
ghost use Rattle.ags_card.specs.declared.terms.Term.{Term};
ghost use Rattle.ags_symbol.specs.Split.{known_sum, open_terms};
ghost use Rattle.ags_symbol.specs.Symbol.{Entry, AreValuesOf, EachNameOnce, NamesUnknown, found, plus, sum_of, total};

/// A pair is found of a symbol exactly where there is one, and where each symbol has one pair, it is that one.
pub fn pairs_are_found_by_name()
    ensures some { (name : List ℕ) (symbols : List Entry) (entry : Entry) → found name symbols ≡ Some entry
        → Contains symbols entry × (entry.name ≡ name) }
    ensures none { (name : List ℕ) (symbols : List Entry) (entry : Entry) → found name symbols ≡ None
        → Contains symbols entry → entry.name ≢ name }
    ensures only { (symbols : List Entry) (entry : Entry) → EachNameOnce symbols → Contains symbols entry
        → found entry.name symbols ≡ Some entry }
{}

/// A sum of terms has no value exactly where one of its symbols has no pair; and where each term has a value, the sum is that of
/// these values.
pub fn sums_are_of_the_terms_values()
    ensures none { (symbols : List Entry) (here : ℕ) (terms : List Term)
        → (sum_of symbols here terms ≡ None) ↔ NamesUnknown symbols terms }
    ensures some { (symbols : List Entry) (here : ℕ) (terms : List Term) (values : List ℤ) → AreValuesOf symbols here terms values
        → sum_of symbols here terms ≡ Some (total values) }
{}

/// Whatever pairs come after, a sum is what its terms came to that had a value early, with the sum of those that were open; and
/// a sum that was known early stays what it is.
pub fn sums_are_split()
    ensures sum { (early later : List Entry) (here : ℕ) (terms : List Term)
        → sum_of (early ++ later) here terms ≡ plus (Some (known_sum early here terms)) (sum_of (early ++ later) here (open_terms early here terms)) }
    ensures known { (early later : List Entry) (here : ℕ) (terms : List Term) (value : ℤ) → sum_of early here terms ≡ Some value
        → sum_of (early ++ later) here terms ≡ Some value }
{}
