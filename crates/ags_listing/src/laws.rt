//! The laws that join the text of a listing and its reader. Behind each clause is a lemma of `proofs/`.

ghost use Rattle.std.specs.Prelude.{◌≡◌, ◌⊎◌, ℕ, List, Option};
ghost use Rattle.std.specs.List.{All};
ghost use Rattle.ags_isa.specs.Code.{AreCodes};
ghost use Rattle.ags_image.specs.Image.{EachPlaceOnce, IsImageOf};
ghost use Rattle.ags_asm.specs.Source.{CardWords, Defines, placed_words};
ghost use Rattle.ags_listing.specs.Listing.{PrintedCard, IsPrintable, listing, listing_text, printed_words};
ghost use Rattle.ags_listing.specs.Reads.{Reads, IsFaultyListing};
ghost use Rattle.ags_listing.specs.declared.list_error.ListError.{ListError};

/// The listing of cards that can be printed reads back as the image of their words, where no place comes twice.
pub fn printed_listing_reads_back()
    ensures { (cards : List PrintedCard) (image : List (Option ℕ)) → All IsPrintable cards → EachPlaceOnce (printed_words cards)
        → IsImageOf (printed_words cards) image → Reads (listing_text cards) image }
{}

/// The listing of a source reads back as exactly the words that the source defines.
pub fn written_listing_reads_back()
    ensures { (codes text : List ℕ) (words : CardWords) (image : List (Option ℕ)) → AreCodes codes
        → Defines codes text words → IsImageOf (placed_words words) image → Reads (listing text words) image }
{}

/// A text is the listing of one image, or it has one first fault, and never both.
pub fn listing_reads_or_has_a_fault()
    ensures some { (bytes : List ℕ) → ((image : List (Option ℕ)) × Reads bytes image) ⊎ ((error : ListError) × IsFaultyListing bytes error) }
    ensures one { (bytes : List ℕ) (image other : List (Option ℕ)) → Reads bytes image → Reads bytes other → image ≡ other }
    ensures fault { (bytes : List ℕ) (error other : ListError) → IsFaultyListing bytes error → IsFaultyListing bytes other → error ≡ other }
    ensures not_both { (bytes : List ℕ) (image : List (Option ℕ)) (error : ListError) → Reads bytes image → IsFaultyListing bytes error → ⊥ }
{}
