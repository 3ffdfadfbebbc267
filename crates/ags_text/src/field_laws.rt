//! Laws of fields: what stands in a line is what is cut from it, over every line and every list of fields.

ghost use Rattle.std.specs.Prelude.{◌≡◌, ℕ, ◌<◌, ◌≤◌, Bool, false, List, [], ◌∷◌, ◌++◌, IsTrue, slice_index};
ghost use Rattle.std.specs.List.{list_all};
ghost use Rattle.ags_text.specs.Field.{is_blank, AreBlanks, HasNoBlank, IsField, AreFields, AreSome, Behind, HasFields, leading_field, behind_leading_field, next_field, behind_field, AreCut};
ghost use Rattle.ags_text.specs.Numeral.{IsNumber, Writes};

/// The fields that stand in a line, or after the field at its start, are those that are cut.
pub fn standing_fields_are_cut()
    ensures in_line { (line : List ℕ) (fields : List (List ℕ)) → AreFields fields → HasFields line fields → AreCut fields line }
    ensures behind { (line field behind : List ℕ) (fields : List (List ℕ)) → HasNoBlank field → AreFields fields → line ≡ field ++ behind → Behind fields behind
        → (leading_field line ≡ field) × AreCut fields (behind_leading_field line) }
{}

/// What is cut from a line, or after the field at its start, stands there where none of it is empty, and each is a field.
pub fn cut_fields_stand()
    ensures in_line { (line : List ℕ) (fields : List (List ℕ)) → AreSome fields → AreCut fields line → AreFields fields × HasFields line fields }
    ensures behind { (line : List ℕ) (fields : List (List ℕ)) → AreSome fields → AreCut fields (behind_leading_field line)
        → HasNoBlank (leading_field line) × (line ≡ leading_field line ++ behind_leading_field line) × Behind fields (behind_leading_field line) }
{}

/// Blanks are what has no field, and nothing stands after it.
pub fn blanks_have_no_field()
    ensures none { (text : List ℕ) → AreBlanks text → (next_field text ≡ []) × (behind_field text ≡ []) }
    ensures blanks { (text : List ℕ) → next_field text ≡ [] → AreBlanks text }
{}

/// The first byte of a line begins its first field where it is no blank, and bytes that pass a test which no blank
/// passes are no blanks.
pub fn bytes_tell_fields()
    ensures first { (b : ℕ) (line : List ℕ) → is_blank b ≡ false → slice_index (next_field (b ∷ line)) 0 ≡ b }
    ensures tested { (test : ℕ → Bool) → test 32 ≡ false → test 9 ≡ false → (text : List ℕ) → IsTrue (list_all test text) → HasNoBlank text }
{}

/// The digits that write a number are a field, in each base that has digits.
pub fn numbers_are_fields()
    ensures some { (base most : ℕ) (text : List ℕ) (number : ℕ) → base ≤ 36 → IsNumber base most text number → IsField text }
    ensures width { (base width : ℕ) (text : List ℕ) (number : ℕ) → base ≤ 36 → 0 < width → Writes base width text number → IsField text }
{}
