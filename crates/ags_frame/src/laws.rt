//! What the definitions of lines mean, over every line. Each law is what a function that does nothing ensures, so that it is
//! proved with the crate.

ghost use Rattle.std.specs.Prelude.{◌≡◌, ℕ, List};
ghost use Rattle.ags_text.specs.Field.{IsField};
ghost use Rattle.ags_frame.specs.declared.openings.Opening.{Opening};
ghost use Rattle.ags_frame.specs.Opening.{IsOpening};
ghost use Rattle.ags_frame.specs.Reading.{Reading, IsFirstReading, IsReading, opening_reading};

use crate::statements::Statements;

/// A line has one reading as a text's first line, and no other; it is what the line is told to be.
pub fn first_line_has_one_reading<T: Statements>()
    ensures some { (name : List ℕ) (latest : ℕ) (line : List ℕ) → IsField name → (reading : Reading T.Statement) × IsFirstReading name latest line reading }
    ensures one { (name : List ℕ) (latest : ℕ) (line : List ℕ) (reading other : Reading T.Statement) → IsField name
        → IsFirstReading name latest line reading → IsFirstReading name latest line other → reading ≡ other }
    ensures told { (name : List ℕ) (latest : ℕ) (line : List ℕ) (its : Opening) → IsOpening name latest line its
        → IsFirstReading {S = T.Statement} name latest line (opening_reading its) }
{}

/// A line has one reading as a further line, and no other: it spells one statement, or does nothing, or is malformed.
pub fn line_has_one_reading<T: Statements>()
    ensures some { (line : List ℕ) → (reading : Reading T.Statement) × IsReading T.states line reading }
    ensures one { (line : List ℕ) (reading other : Reading T.Statement) → IsReading T.states line reading → IsReading T.states line other → reading ≡ other }
{
    T::lines_state_one_thing_at_most();
}
