//! The laws of tapes: of the text that is written, and of what a text reads as. Behind each clause is a lemma of `proofs/`.

ghost use Rattle.std.specs.Prelude.{◌≡◌, ◌⊎◌, ℕ, List, Option};
ghost use Rattle.std.specs.List.{flat_map};
ghost use Rattle.ags_image.specs.Image.{IsImage, PlacedWord};
ghost use Rattle.ags_image.specs.declared.tape_reading.TapeError.{TapeError};
ghost use Rattle.ags_image.specs.Tape.{AreWordsInOrder, ReadsTape, tape_text, word_line};
ghost use Rattle.ags_image.specs.TapeFault.{IsFaultyTape};

/// A written tape reads back as its image.
pub fn written_tape_reads_back()
    ensures { (image : List (Option ℕ)) → IsImage image → ReadsTape (tape_text image) image }
{}

/// A tape has one line for each location that has a word, by strictly ascending locations, and no other line.
pub fn tape_lines_ascend()
    ensures { (image : List (Option ℕ)) → (words : List PlacedWord) × AreWordsInOrder image words
        × (tape_text image ≡ flat_map word_line words) }
{}

/// A text is the tape of one image, or it has one first fault, and never both.
pub fn tape_reads_or_has_a_fault()
    ensures some { (bytes : List ℕ) → ((image : List (Option ℕ)) × ReadsTape bytes image) ⊎ ((error : TapeError) × IsFaultyTape bytes error) }
    ensures one { (bytes : List ℕ) (image other : List (Option ℕ)) → ReadsTape bytes image → ReadsTape bytes other → image ≡ other }
    ensures fault { (bytes : List ℕ) (error other : TapeError) → IsFaultyTape bytes error → IsFaultyTape bytes other → error ≡ other }
    ensures not_both { (bytes : List ℕ) (image : List (Option ℕ)) (error : TapeError) → ReadsTape bytes image → IsFaultyTape bytes error → ⊥ }
{}
