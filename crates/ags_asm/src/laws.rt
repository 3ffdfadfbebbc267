//! Laws of sources: what a text means, and what it defines. Behind each clause is a lemma of `proofs/`, which the crates
//! above cite.

ghost use Rattle.std.specs.Prelude.{◌≡◌, ◌⊎◌, ◌↔◌, ℕ, List, [], Some, None, length, reverse};
ghost use Rattle.std.specs.List.{Contains};
ghost use Rattle.ags_text.specs.Fault.{first_fault};
ghost use Rattle.ags_isa.specs.Code.{AreCodes};
ghost use Rattle.ags_card.specs.declared.cards.Card.{Card};
ghost use Rattle.ags_image.specs.Image.{PlacedWord, IsMemoryWord, EachPlaceOnce};
ghost use Rattle.ags_places.specs.declared.source_error.SourceError.{SourceError};
ghost use Rattle.ags_places.specs.declared.source_error.SourceKind.{SourceKind};
ghost use Rattle.ags_places.specs.Deck.{card_lines};
ghost use Rattle.ags_places.specs.Faulty.{kind_number};
ghost use Rattle.ags_symbol.specs.Symbol.{Entry};
ghost use Rattle.ags_asm.specs.Faulty.{IsFaultyCard, IsLeastFaulty, StandsBefore, StandsNearest};
ghost use Rattle.ags_asm.specs.Source.{CardWords, Defines, IsFaulty, placed_words};
ghost use Rattle.ags_asm.specs.Word.{owner, word_fault};

/// A text means one thing by a table of codes: it defines one list of words, or it has one first fault, and never both.
pub fn source_means_one_thing()
    ensures words { (codes text : List ℕ) (one other : CardWords) → Defines codes text one
        → Defines codes text other → one ≡ other }
    ensures fault { (text : List ℕ) (one other : SourceError) → IsFaulty text one → IsFaulty text other → one ≡ other }
    ensures not_both { (codes text : List ℕ) (defined : CardWords) (error : SourceError)
        → Defines codes text defined → IsFaulty text error → ⊥ }
{}

/// Each text means something: it defines words, or it has a first fault.
pub fn each_text_has_a_meaning()
    ensures { (codes text : List ℕ) → ((defined : CardWords) × Defines codes text defined)
        ⊎ ((error : SourceError) × IsFaulty text error) }
{}

/// What a source defines has each place once.
pub fn source_defines_each_place_once()
    ensures { (codes text : List ℕ) (defined : CardWords) → Defines codes text defined
        → EachPlaceOnce (placed_words defined) }
{}

/// What a source defines are words of the memory: each is put at one of its places, and is below 2 ^ 18.
pub fn source_defines_words_of_the_memory()
    ensures { (codes text : List ℕ) (defined : CardWords) → AreCodes codes → Defines codes text defined
        → (placed : PlacedWord) → Contains (placed_words defined) placed → IsMemoryWord placed }
{}

/// What a source defines has one list of words for each of its cards.
pub fn each_card_has_its_definition()
    ensures { (codes text : List ℕ) (defined : CardWords) → Defines codes text defined
        → length defined ≡ length (card_lines text) }
{}

/// The fault that is told of a source is the least of all that its cards are faulty by: by the phase, then the card, then the number.
/// Where the source is defined no card is faulty.
pub fn least_fault_is_told()
    ensures told { (text : List ℕ) (error : SourceError) → IsFaulty text error → IsLeastFaulty text error.card error.kind }
    ensures least { (text : List ℕ) (card : ℕ) (kind : SourceKind) → IsLeastFaulty text card kind
        → (error : SourceError) × IsFaulty text error × (error.card ≡ card) × (kind_number error.kind ≡ kind_number kind) }
    ensures none { (codes text : List ℕ) (defined : CardWords) → Defines codes text defined
        → (card : ℕ) (kind : SourceKind) → IsFaultyCard text card kind → ⊥ }
{}

/// The owner of a place is the nearest of the earlier cards that have a word there, and there is none exactly where no earlier
/// card has one. Of cards without a fault of the phase of words only one has a word at a place, so there it is that one.
pub fn owner_is_the_nearest_earlier_card()
    ensures some { (S : List Entry) (before : List Card) (number at : ℕ) → (owner S at before ≡ Some number) ↔ StandsNearest S before number at }
    ensures none { (S : List Entry) (before : List Card) (at : ℕ) → (owner S at before ≡ None) ↔ ((number : ℕ) → StandsBefore S before number at → ⊥) }
    ensures one { (S : List Entry) (cards : List Card) (at one other : ℕ) → first_fault (word_fault S) [] cards ≡ None
        → StandsBefore S (reverse cards) one at → StandsBefore S (reverse cards) other at → one ≡ other }
{}
