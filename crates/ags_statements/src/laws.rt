//! What the definitions of a text of statements mean, over every text. Each law is what a function that does nothing ensures, so that it
//! is proved with the crate.

ghost use Rattle.std.specs.Prelude.{◌≡◌, ◌⊎◌, ℕ, List};
ghost use Rattle.ags_text.specs.Field.{IsField};
ghost use Rattle.ags_frame.specs.Fault.{Faults};
ghost use Rattle.ags_statements.specs.Text.{IsTextOf, IsFaultyText};

use ags_frame::{Statements, first_line_has_one_reading, line_has_one_reading};

/// A text means something, and one thing: it has statements without a fault, or it has one first fault, and never both.
pub fn text_of_statements_has_one_meaning<T: Statements, F>()
    ensures some { (name : List ℕ) (latest : ℕ) (its : Faults T.Statement F) (text : List ℕ) → IsField name
        → ((statements : List T.Statement) × IsTextOf name latest T.states its text statements)
        ⊎ ((line : ℕ) × (fault : F) × IsFaultyText name latest T.states its text line fault) }
    ensures text { (name : List ℕ) (latest : ℕ) (its : Faults T.Statement F) (text : List ℕ) (one other : List T.Statement) → IsField name
        → IsTextOf name latest T.states its text one → IsTextOf name latest T.states its text other → one ≡ other }
    ensures fault { (name : List ℕ) (latest : ℕ) (its : Faults T.Statement F) (text : List ℕ) (line other_line : ℕ) (fault other_fault : F) → IsField name
        → IsFaultyText name latest T.states its text line fault → IsFaultyText name latest T.states its text other_line other_fault
        → (line ≡ other_line) × (fault ≡ other_fault) }
    ensures not_both { (name : List ℕ) (latest : ℕ) (its : Faults T.Statement F) (text : List ℕ) (statements : List T.Statement) (line : ℕ) (fault : F) → IsField name
        → IsTextOf name latest T.states its text statements → IsFaultyText name latest T.states its text line fault → ⊥ }
{
    first_line_has_one_reading::<T>();
    line_has_one_reading::<T>();
}
