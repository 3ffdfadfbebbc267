//! Laws of a text that comes in pieces: how the lines that have ended grow with it.

ghost use Rattle.std.specs.Prelude.{◌≡◌, ◌<◌, ℕ, List, [], ◌++◌, ◌∷◌, length};
ghost use Rattle.ags_text.specs.Line.{LineAt, HasNoFeed, lines_of};
ghost use Rattle.ags_text.specs.Piece.{HasEnded, last_lines, line_of};

/// The lines of a text that goes on. Before its first byte none has ended. Bytes without a line feed are of the rest, whether or not
/// a return stands at the edge of a piece; a line feed ends the line of the rest; and at the end of the text the rest is its last
/// line. A rest of more than 513 bytes is of a line of more than 512, however the text goes on.
pub fn lines_end_in_pieces()
    ensures none { HasEnded [] [] [] }
    ensures more { (text rest bytes : List ℕ) (ended : List LineAt) → HasEnded text ended rest → HasNoFeed bytes
        → HasEnded (text ++ bytes) ended (rest ++ bytes) }
    ensures feed { (text rest : List ℕ) (ended : List LineAt) → (so : HasEnded text ended rest)
        → HasEnded (text ++ 10 ∷ []) (ended ++ line_of so ∷ []) [] }
    ensures all { (text rest : List ℕ) (ended : List LineAt) → (so : HasEnded text ended rest) → lines_of text ≡ ended ++ last_lines so }
    ensures long { (text rest more : List ℕ) (ended : List LineAt) → HasEnded text ended rest → 513 < length rest
        → (line : LineAt) × (behind : List LineAt) × (512 < length line.bytes) × (lines_of (text ++ more) ≡ ended ++ line ∷ behind) }
{}
