//! What the definitions of a text of scales mean, over every text. The law is what a function that does nothing ensures, so that it is
//! proved with the crate.

ghost use Rattle.std.specs.Prelude.{◌≡◌, ◌⊎◌, ℕ, List, length};
ghost use Rattle.ags_ports.specs.Port.{Registers};
ghost use Rattle.ags_tags.specs.Tag.{Scaling};
ghost use Rattle.ags_tags.specs.Text.{IsScalesOf, IsFaultyScales};
ghost use Rattle.ags_tags.specs.declared.scale_errors.ScaleKind.{ScaleKind};

use crate::gatherers::Gatherer;
use crate::scale_errors::ScaleKind;
use ags_statements::text_of_statements_has_one_meaning;

/// A text means something, and one thing, for a machine's registers and so many rows: it states scales, or it has a first fault; it states
/// no two scales and has no two first faults, and never both scales and a fault. There is a row's tags for each row.
pub fn text_of_scales_has_one_meaning()
    ensures some { (ports : Registers) (rows : ℕ) (text : List ℕ)
        → ((scales : Scaling) × IsScalesOf ports rows text scales) ⊎ ((line : ℕ) × (kind : ScaleKind) × IsFaultyScales ports rows text line kind) }
    ensures rows { (ports : Registers) (rows : ℕ) (text : List ℕ) (scales : Scaling) → IsScalesOf ports rows text scales → length scales.rows ≡ rows }
    ensures scales { (ports : Registers) (rows : ℕ) (text : List ℕ) (one other : Scaling)
        → IsScalesOf ports rows text one → IsScalesOf ports rows text other → one ≡ other }
    ensures fault { (ports : Registers) (rows : ℕ) (text : List ℕ) (line other_line : ℕ) (kind other_kind : ScaleKind)
        → IsFaultyScales ports rows text line kind → IsFaultyScales ports rows text other_line other_kind → (line ≡ other_line) × (kind ≡ other_kind) }
    ensures not_both { (ports : Registers) (rows : ℕ) (text : List ℕ) (scales : Scaling) (line : ℕ) (kind : ScaleKind)
        → IsScalesOf ports rows text scales → IsFaultyScales ports rows text line kind → ⊥ }
{
    text_of_statements_has_one_meaning::<Gatherer, ScaleKind>();
}
