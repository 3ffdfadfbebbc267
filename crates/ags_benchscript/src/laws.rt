//! What the definitions of bench scripts mean, over every line, every text and every machine.

ghost use Rattle.std.specs.Prelude.{◌≡◌, ℕ, ◌⊎◌, List};
ghost use Rattle.ags_ports.specs.declared.machines.Machine.{Machine};
ghost use Rattle.ags_script.specs.declared.script_errors.ScriptKind.{ScriptKind};
ghost use Rattle.ags_benchscript.specs.declared.commands.BenchCommand.{BenchCommand};
ghost use Rattle.ags_benchscript.specs.Reading.{reading};
ghost use Rattle.ags_benchscript.specs.Script.{IsScript, IsFaultyScript, IsReadFor};
ghost use Rattle.ags_benchscript.specs.Spelling.{LineReading, Malformed, Spells};
ghost use Rattle.ags_benchscript.specs.Suiting.{Suits};

/// What a line is read as is what it spells, each line that spells something is read as that, and a malformed line spells
/// nothing. So no line spells two things.
pub fn lines_spell_what_is_read()
    ensures found { (line : List ℕ) (asked : LineReading) → reading line ≡ asked → (asked ≡ Malformed → ⊥) → Spells line asked }
    ensures only { (line : List ℕ) (asked : LineReading) → Spells line asked → reading line ≡ asked }
    ensures malformed { (line : List ℕ) (asked : LineReading) → reading line ≡ Malformed → Spells line asked → ⊥ }
{}

/// A text means one thing for a machine: it is a bench script with one list of commands, or it has one first fault, and never
/// both.
pub fn script_means_one_thing()
    ensures either { (machine : Machine) (text : List ℕ)
        → ((asked : List (ℕ × BenchCommand)) × IsScript machine text asked)
        ⊎ ((line : ℕ) × (kind : ScriptKind) × IsFaultyScript machine text line kind) }
    ensures commands { (machine : Machine) (text : List ℕ) (one other : List (ℕ × BenchCommand)) → IsScript machine text one
        → IsScript machine text other → one ≡ other }
    ensures fault { (machine : Machine) (text : List ℕ) (line other_line : ℕ) (kind other_kind : ScriptKind)
        → IsFaultyScript machine text line kind → IsFaultyScript machine text other_line other_kind
        → (line ≡ other_line) × (kind ≡ other_kind) }
    ensures not_both { (machine : Machine) (text : List ℕ) (asked : List (ℕ × BenchCommand)) (line : ℕ) (kind : ScriptKind)
        → IsScript machine text asked → IsFaultyScript machine text line kind → ⊥ }
{}

/// A bench script's commands suit the machine that it is read for: it has each register that they name, each address is one
/// of a location, and the steps are no more than a script may have.
pub fn scripts_suit_their_machine()
    ensures { (machine : Machine) (asked : List (ℕ × BenchCommand)) → IsReadFor machine asked → Suits machine asked }
{}
