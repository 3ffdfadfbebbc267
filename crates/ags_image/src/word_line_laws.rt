//! Laws of texts whose lines put words at places. Behind each clause is a lemma of `proofs/`.

ghost use Rattle.std.specs.Prelude.{◌≡◌, ℕ, ◌<◌, ◌^◌, ◌⊎◌, List, Option, Some, None, length};
ghost use Rattle.ags_text.specs.Numeral.{octal4_text, octal6_text};
ghost use Rattle.ags_image.specs.Image.{memory_size, IsMemoryWord, PlacedWord};
ghost use Rattle.ags_image.specs.Columns.{placed_in};
ghost use Rattle.ags_image.specs.Form.{Form, PutsInMemory, ReadBy};
ghost use Rattle.ags_image.specs.Fault.{LineFault, first_line_fault};
ghost use Rattle.ags_image.specs.Lines.{IsCutAtFeeds, feed_lines};

/// A text is cut at its line feeds into its lines, and into no others.
pub fn text_is_cut_at_feeds()
    ensures cut { (text : List ℕ) → IsCutAtFeeds text (feed_lines text) }
    ensures one { (text : List ℕ) (lines : List (List ℕ)) → IsCutAtFeeds text lines → lines ≡ feed_lines text }
{}

/// Lines that are those of an image have no fault.
pub fn read_text_has_no_fault()
    ensures { (form : Form) (lines : List (List ℕ)) (image : List (Option ℕ)) → ReadBy form lines image → first_line_fault form lines ≡ None }
{}

/// The digits of a place and of a word, as they are printed, read back as that word at that place.
pub fn printed_columns_are_read()
    ensures { (place word : ℕ) → place < memory_size → word < 2 ^ 18
        → placed_in (octal4_text place) (octal6_text word) ≡ Some (record { place = place; word = word }) }
{}

/// Columns of four and of six digits write a word of the memory at its place.
pub fn columns_put_words_of_the_memory()
    ensures { (place word : List ℕ) (placed : PlacedWord) → length place ≡ 4 → length word ≡ 6
        → placed_in place word ≡ Some placed → IsMemoryWord placed }
{}

/// Lines have an image or a first fault, where their form puts words of the memory alone; and they have one image.
pub fn each_text_is_read_or_has_a_fault()
    ensures some { (form : Form) (lines : List (List ℕ)) → PutsInMemory form
        → ((image : List (Option ℕ)) × ReadBy form lines image)
        ⊎ ((number : ℕ) × (fault : LineFault) × (first_line_fault form lines ≡ Some (number, fault))) }
    ensures one { (form : Form) (lines : List (List ℕ)) (image other : List (Option ℕ)) → ReadBy form lines image
        → ReadBy form lines other → image ≡ other }
{}
