//! What the definitions of a text of edits mean, over every text. The law is what a function that does nothing ensures, so that it is
//! proved with the crate.

ghost use Rattle.std.specs.Prelude.{◌≡◌, ◌⊎◌, ℕ, List};
ghost use Rattle.ags_edits.specs.Text.{IsEditsOf, IsFaultyEdits};
ghost use Rattle.ags_edits.specs.declared.edits.Edit.{Edit};
ghost use Rattle.ags_edits.specs.declared.edits_errors.EditsKind.{EditsKind};

use crate::edits_errors::EditsKind;
use crate::gatherers::Gatherer;
use ags_statements::text_of_statements_has_one_meaning;

/// A text means something, and one thing: it states edits, or it has a first fault; it states no two lists of edits and has no two first
/// faults, and never both edits and a fault.
pub fn text_of_edits_has_one_meaning()
    ensures some { (text : List ℕ) → ((edits : List Edit) × IsEditsOf text edits) ⊎ ((line : ℕ) × (kind : EditsKind) × IsFaultyEdits text line kind) }
    ensures edits { (text : List ℕ) (one other : List Edit) → IsEditsOf text one → IsEditsOf text other → one ≡ other }
    ensures fault { (text : List ℕ) (line other_line : ℕ) (kind other_kind : EditsKind)
        → IsFaultyEdits text line kind → IsFaultyEdits text other_line other_kind → (line ≡ other_line) × (kind ≡ other_kind) }
    ensures not_both { (text : List ℕ) (edits : List Edit) (line : ℕ) (kind : EditsKind) → IsEditsOf text edits → IsFaultyEdits text line kind → ⊥ }
{
    text_of_statements_has_one_meaning::<Gatherer, EditsKind>();
}
