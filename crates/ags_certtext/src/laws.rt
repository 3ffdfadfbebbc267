//! What the definitions of a certificate's lines mean, over every line.

ghost use Rattle.std.specs.Prelude.{◌≡◌, ◌⊎◌, ℕ, List};
ghost use Rattle.ags_text.specs.Field.{AreFields};
ghost use Rattle.ags_ports.specs.Port.{Registers};
ghost use Rattle.ags_frame.specs.Line.{Spells};
ghost use Rattle.ags_certtext.specs.declared.statements.Statement.{Statement};
ghost use Rattle.ags_certtext.specs.Reading.{Reading, IsFirstReading, IsReading};
ghost use Rattle.ags_certtext.specs.declared.statements.RowLine.{RowLine};
ghost use Rattle.ags_certtext.specs.Condition.{least_fault};
ghost use Rattle.ags_certtext.specs.Fault.{fault_in};
ghost use Rattle.ags_certtext.specs.Front.{AreAtFront};
ghost use Rattle.ags_certtext.specs.Operand.{IsRow};
ghost use Rattle.ags_certtext.specs.Spelling.{States, StatesRowBehind};
ghost use Rattle.ags_certtext.specs.Statement.{IsStatement};

/// A line has one reading as a certificate's first line, and no other.
pub fn first_line_has_one_reading()
    ensures some { (line : List ℕ) → (reading : Reading) × IsFirstReading line reading }
    ensures one { (line : List ℕ) (reading other : Reading) → IsFirstReading line reading → IsFirstReading line other → reading ≡ other }
{}

/// A line has one reading as a further line, and no other: it spells one statement, or does nothing, or is malformed.
pub fn line_has_one_reading()
    ensures some { (line : List ℕ) → (reading : Reading) × IsReading line reading }
    ensures one { (line : List ℕ) (reading other : Reading) → IsReading line reading → IsReading line other → reading ≡ other }
{}

/// A statement that a line spells has addresses and locations below 4096, and a row has an index and an indicator.
pub fn spelled_statements_are_lawful()
    ensures { (line : List ℕ) (statement : Statement) → Spells States line statement → IsStatement statement }
{}

/// Of several faults of a statement the one of the least number is told: the first kind, by their numbers, whose condition the statement
/// meets after those before it. There is none where it meets none.
pub fn least_fault_is_told()
    ensures { (ports : Registers) (version : ℕ) (before : List Statement) (statement : Statement)
        → fault_in ports version before statement ≡ least_fault ports version before statement }
{}

/// A text's fields state one row, or none. What `read_row` reads after some fields of a line is the row that the line states after them.
pub fn row_fields_have_one_reading()
    ensures some { (text : List ℕ) → ((row : RowLine) × IsRow text row) ⊎ ((row : RowLine) → IsRow text row → ⊥) }
    ensures one { (text : List ℕ) (row other : RowLine) → IsRow text row → IsRow text other → row ≡ other }
    ensures states { (front : List (List ℕ)) (line text : List ℕ) (row : RowLine) → AreFields front → AreAtFront front line text → IsRow text row
        → StatesRowBehind front line row }
    ensures stands { (front : List (List ℕ)) (line : List ℕ) (row : RowLine) → AreFields front → StatesRowBehind front line row
        → (text : List ℕ) × AreAtFront front line text × IsRow text row }
{}
