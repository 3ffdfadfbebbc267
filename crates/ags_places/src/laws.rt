//! Laws of places and symbols, over all cards. Behind each clause is a lemma of `proofs/`, which the crates above cite.

ghost use Rattle.std.specs.Prelude.{◌≡◌, ℕ, ◌+◌, ◌++◌, [], ◌∷◌, ◌<◌, List, None, IfSome, All, codes, false, length, unsigned_abs};
ghost use Rattle.std.specs.Fmt.{decimal};
ghost use Rattle.std.specs.List.{filter_map, list_any};
ghost use Rattle.ags_text.specs.Line.{Follow, LineAt, lines_of};
ghost use Rattle.ags_card.specs.declared.cards.Card.{Card};
ghost use Rattle.ags_card.specs.declared.terms.Term.{Term};
ghost use Rattle.ags_card.specs.declared.cards.Body.{Body};
ghost use Rattle.ags_card.specs.declared.cards.Body.TheVariants.{Org};
ghost use Rattle.ags_symbol.specs.Symbol.{Entry, EachNameOnce, names};
ghost use Rattle.ags_places.specs.Deck.{EndsAtFirstEnd, card_lines, cards};
ghost use Rattle.ags_places.specs.declared.source_error.SourceKind.{SourceKind};
ghost use Rattle.ags_places.specs.Fault.{body_fault, early_fault};
ghost use Rattle.ags_places.specs.FaultText.{kind_text};
ghost use Rattle.ags_places.specs.Faulty.{kind_number};
ghost use Rattle.ags_places.specs.Place.{Fits, count, early, operand, place, places, is_org, sizes};

/// Exactly one list of pairs fits the cards of a source, whichever they are.
pub fn one_list_of_pairs_fits()
    ensures some { (cards : List Card) → (S : List Entry) × Fits S cards }
    ensures one { (cards : List Card) (one other : List Entry) → Fits one cards → Fits other cards → one ≡ other }
{}

/// The lines of a source's cards are those of its text up to and with the first that reads as END, and all where none does; and
/// no other lines are that.
pub fn source_ends_at_its_first_end()
    ensures is { (text : List ℕ) → EndsAtFirstEnd (lines_of text) (card_lines text) }
    ensures one { (lines cards other : List LineAt) → EndsAtFirstEnd lines cards → EndsAtFirstEnd lines other → cards ≡ other }
{}

/// The lines of a source's cards stand in its text where they say, one after the other.
pub fn card_lines_follow()
    ensures { (text : List ℕ) → Follow text 0 (card_lines text) }
{}

/// The place of a card is the value of the last ORG before it, or 0, and the sizes of the cards since.
pub fn places_are_sums()
    ensures start { (S : List Entry) (since : List Card) → list_any is_org since ≡ false → place S since ≡ sizes S since [] }
    ensures org { (S : List Entry) (since before : List Card) (card : Card) (terms : List Term) → list_any is_org since ≡ false → card.body ≡ Org terms
        → place S (since ++ card ∷ before) ≡ unsigned_abs (operand (early S (length before)) (place S before) terms) + sizes S since (card ∷ before) }
{}

/// The list that fits has one pair for each symbol in a symbol field, in order, and in a source without a fault of the first two
/// phases no symbol stands there twice.
pub fn each_symbol_has_a_pair()
    ensures names { (S : List Entry) (cards : List Card) → Fits S cards → names S ≡ filter_map (λ card. card.symbol) cards }
    ensures once { (text : List ℕ) (S : List Entry) → Fits S (cards text) → early_fault S text ≡ None → EachNameOnce S }
{}

/// In a source without a fault of the first two phases each word's place is one of the memory's: the first of each card, and each
/// of a card that is not out of range.
pub fn words_stand_in_the_memory()
    ensures first { (text : List ℕ) (S : List Entry) → Fits S (cards text) → early_fault S text ≡ None
        → All (λ at. IfSome at (λ place. place < 4096)) (places S (cards text)) }
    ensures each { (early : List Entry) (at i : ℕ) (body : Body) → body_fault early at body ≡ None → i < count body → at + i < 4096 }
{}

/// What is printed of a kind of fault begins with its number and a blank.
pub fn kinds_are_printed_by_their_numbers()
    ensures { (kind : SourceKind) → (name : List ℕ) × (kind_text kind ≡ decimal (kind_number kind) ++ codes " " ++ name) }
{}
