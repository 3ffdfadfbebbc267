//! How the definitions meet, for the crates above. Each law is what a function that does nothing ensures, so that it is
//! proved with the crate. Behind each clause is a lemma of `proofs/ImageLaws`.
#![tactic(auto, unfolding(crate::specs::Image::no_words, crate::specs::Image::entry_at, crate::specs::Image::word_at, crate::specs::Image::with_word))]

ghost use Rattle.std.specs.Prelude.{◌≡◌, ◌≢◌, ℕ, ◌<◌, ◌^◌, ◌++◌, List, [], ◌∷◌, Option, Some, None, length};
ghost use Rattle.std.specs.List.{Contains};
ghost use Rattle.ags_image.specs.Image.{memory_size, no_words, entry_at, word_at, with_word, IsImage, PlacedWord, IsMemoryWord, EachPlaceOnce, EachPlaceHasOneWord, IsImageOf};

/// The image without a word is an image, and none of its locations has a word.
pub fn no_words_has_no_word()
    ensures image { IsImage no_words }
    ensures entry { (location : ℕ) → entry_at no_words location ≡ None }
{}

/// A location's word is its entry's, and 0 where that is none.
pub fn word_is_that_of_entry()
    ensures some { (image : List (Option ℕ)) (location word : ℕ) → entry_at image location ≡ Some word
        → word_at image location ≡ word }
    ensures none { (image : List (Option ℕ)) (location : ℕ) → entry_at image location ≡ None
        → word_at image location ≡ 0 }
{}

/// The word that a location is given is the one that it has.
pub fn set_word_is_read_back()
    ensures entry { (image : List (Option ℕ)) (location word : ℕ) → location < length image
        → entry_at (with_word image location word) location ≡ Some word }
    ensures word { (image : List (Option ℕ)) (location word : ℕ) → location < length image
        → word_at (with_word image location word) location ≡ word }
{}

/// To give one location a word changes no other location.
pub fn other_locations_stay()
    ensures entry { (image : List (Option ℕ)) (location other word : ℕ) → other ≢ location
        → entry_at (with_word image location word) other ≡ entry_at image other }
    ensures word { (image : List (Option ℕ)) (location other word : ℕ) → other ≢ location
        → word_at (with_word image location word) other ≡ word_at image other }
{}

/// An image that is given a word stays an image of as many locations.
pub fn set_image_is_image()
    ensures length { (image : List (Option ℕ)) (location word : ℕ)
        → length (with_word image location word) ≡ length image }
    ensures image { (image : List (Option ℕ)) (location word : ℕ) → IsImage image → word < 2 ^ 18
        → IsImage (with_word image location word) }
{}

/// Images that have the same entry at each location of the memory are one image.
pub fn entries_make_image()
    ensures { (left right : List (Option ℕ)) → IsImage left → IsImage right
        → ((location : ℕ) → location < memory_size → entry_at left location ≡ entry_at right location)
        → left ≡ right }
{}

/// The image of words is made word by word: of none at first, then of one more, where none of the words before is another
/// word at its place.
pub fn image_is_made_word_by_word()
    ensures first { IsImageOf [] no_words }
    ensures word { (words : List PlacedWord) (image : List (Option ℕ)) (placed : PlacedWord) → IsMemoryWord placed
        → IsImageOf words image → ((other : PlacedWord) → Contains words other → other.place ≡ placed.place → other.word ≡ placed.word)
        → IsImageOf (words ++ placed ∷ []) (with_word image placed.place placed.word) }
{}

/// Words of the memory have an image, where no place has two words.
pub fn apart_words_have_an_image()
    ensures { (words : List PlacedWord) → ((placed : PlacedWord) → Contains words placed → IsMemoryWord placed)
        → EachPlaceHasOneWord words → (image : List (Option ℕ)) × IsImageOf words image }
{}

/// Where no two words are put at one place, no place has two words.
pub fn each_place_once_has_one_word()
    ensures { (words : List PlacedWord) → EachPlaceOnce words → EachPlaceHasOneWord words }
{}

/// Words have one image.
pub fn words_have_one_image()
    ensures { (words : List PlacedWord) (one other : List (Option ℕ)) → IsImageOf words one
        → IsImageOf words other → one ≡ other }
{}
