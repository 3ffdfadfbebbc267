//! Laws of lines: what the lines of a text are, over every text.

ghost use Rattle.std.specs.Prelude.{◌≡◌, ℕ, List};
ghost use Rattle.ags_text.specs.Line.{LineAt, IsCut, Follow, lines_of};

/// The lines of a text with their ends make up the text, from its first byte to its last: nothing of it is lost.
pub fn lines_make_up_the_text()
    ensures { (text : List ℕ) → IsCut text (lines_of text) }
{}

/// A text is cut into lines in one way.
pub fn text_is_cut_in_one_way()
    ensures { (text : List ℕ) (one other : List LineAt) → IsCut text one → IsCut text other → one ≡ other }
{}

/// The lines of a text stand in it where they say, one after the other.
pub fn lines_follow()
    ensures { (text : List ℕ) → Follow text 0 (lines_of text) }
{}
