//! What the reading of lines means, over every line and every card.

ghost use Rattle.std.specs.Prelude.{◌≡◌, ℕ, ◌⊎◌, Bool, true, false, List, Ok, Err, None, IfSome, IsSome};
ghost use Rattle.ags_isa.specs.declared.orders.Order.{Order};
ghost use Rattle.ags_card.specs.declared.cards.Body.TheVariants as body;
ghost use Rattle.ags_card.specs.declared.cards.Card.{Card};
ghost use Rattle.ags_card.specs.declared.cards.CardFault.{CardFault};
ghost use Rattle.ags_card.specs.declared.terms.Term.{Term};
ghost use Rattle.ags_card.specs.Limit.{KeepsLimits};
ghost use Rattle.ags_card.specs.Operation.{is_bare};
ghost use Rattle.ags_card.specs.Reading.{reading};
ghost use Rattle.ags_card.specs.Spelling.{Spells, HasFault, IsLeastFault};
ghost use Rattle.ags_card.specs.Symbol.{IsSymbol};
ghost use Rattle.ags_card.specs.Term.{zero_terms};

/// What a line is read as is the card that it spells, and each line that spells a card is read as it. So no line spells
/// two cards.
pub fn lines_spell_what_is_read()
    ensures found { (line : List ℕ) (card : Card) → reading line ≡ Ok card → Spells line card }
    ensures only { (line : List ℕ) (card : Card) → Spells line card → reading line ≡ Ok card }
{}

/// Each line spells a card or has a fault, and no line does both. The fault that is told is the least.
pub fn each_line_is_a_card_or_has_a_fault()
    ensures some { (line : List ℕ) → ((card : Card) × Spells line card) ⊎ ((fault : CardFault) × HasFault line fault) }
    ensures not_both { (line : List ℕ) (card : Card) (fault : CardFault) → Spells line card → HasFault line fault → ⊥ }
    ensures least { (line : List ℕ) (fault : CardFault) → reading line ≡ Err fault → IsLeastFault line fault }
    ensures told { (line : List ℕ) (fault : CardFault) → IsLeastFault line fault → reading line ≡ Err fault }
{}

/// What holds of each card that is read: its symbol is one, an EQU has one and a comment has none; its terms, its
/// decimals and its words keep their limits; ABS and COM have the one term 0 and no index.
pub fn cards_keep_to_their_form()
    ensures limits { (line : List ℕ) (card : Card) → reading line ≡ Ok card → KeepsLimits card.body }
    ensures symbol { (line : List ℕ) (card : Card) → reading line ≡ Ok card → IfSome card.symbol IsSymbol }
    ensures equ { (line : List ℕ) (card : Card) (terms : List Term) → reading line ≡ Ok card → card.body ≡ body.Equ terms → IsSome card.symbol }
    ensures comment { (line : List ℕ) (card : Card) → reading line ≡ Ok card → card.body ≡ body.Comment → card.symbol ≡ None }
    ensures bare { (line : List ℕ) (card : Card) (order : Order) (terms : List Term) (indexed : Bool)
        → reading line ≡ Ok card → card.body ≡ body.Order order terms indexed → is_bare order ≡ true
        → (terms ≡ zero_terms) × (indexed ≡ false) }
{}
