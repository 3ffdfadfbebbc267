//! What the definitions of a card's parts mean.

ghost use Rattle.std.specs.Prelude.{◌≡◌, ℕ, List, true};
ghost use Rattle.ags_card.specs.Symbol.{is_symbol, IsSymbol};

/// A text passes the test of a symbol exactly where it is one to six capitals and digits, one of them a capital.
pub fn symbols_are_capitals_and_digits()
    ensures passes { (text : List ℕ) → is_symbol text ≡ true → IsSymbol text }
    ensures is_symbol { (text : List ℕ) → IsSymbol text → is_symbol text ≡ true }
{}
