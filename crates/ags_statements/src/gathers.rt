//! What gathers the statements of a text.

ghost use Rattle.std.specs.Prelude.{◌≡◌, ℕ, List, IfOk, IfErr};
ghost use Rattle.ags_frame.specs.Fault.{Faults, has_ended};
ghost use Rattle.ags_statements.specs.Taking.{TakesStatement, TellsUntaken};

use ags_frame::Statements;

/// Why a statement isn't taken.
#[derive(Drop)]
pub enum Untaken<F> {
    /// It has this fault.
    Faulty(F),
    /// There was no memory for it.
    NoMemory,
}

/// What gathers the statements of a text, one after the other.
pub trait Gathers: Statements + Drop {
    /// The kinds of faults that a line may have.
    type Fault: Drop;

    /// How it tells faults.
    ghost faults: { Self → Faults Self.Statement Self.Fault };

    /// Whether what it was made for is still the same, as the number of rows that a text may name. No statement changes it.
    ghost stays: { Self → Self → Type 0 };

    /// What is gathered is that of these statements, nearest first.
    ghost gathered: { Self → List Self.Statement → Type 0 };

    /// Takes a statement of a text of a version after those that were gathered, or tells its fault after them.
    fn take(&mut self, version: u32, statement: Self::Statement) -> Result<(), Untaken<Self::Fault>>
        requires { (line : List ℕ) × Self.Statements.states line statement }
        ensures taken { IfOk result (λ _. TakesStatement gathered (faults self.old) version self.old statement self.new) }
        ensures untaken { IfErr result (TellsUntaken gathered (faults self.old) version self.old statement) }
        ensures stays { stays self.old self.new };

    /// Whether the last of the statements ends a text.
    fn has_ended(&self) -> bool
        ensures { (before : List Self.Statement) → gathered self.now before → result ≡ has_ended (faults self.now).is_end before };

    /// The fault of a line that is none of the forms, and of a missing end.
    fn bad_line(&self) -> Self::Fault
        ensures { result ≡ (faults self.now).bad_line };

    /// The fault of a first line of another version.
    fn version(&self) -> Self::Fault
        ensures { result ≡ (faults self.now).version };

    /// What took nothing more is made for the same.
    ghost stays_at_once: { (gathering : Self) → stays gathering gathering };

    /// So is what took two statements, by what each of them left.
    ghost stays_on: { (old mid new : Self) → stays old mid → stays mid new → stays old new };

    /// What is made for the same tells faults alike.
    ghost faults_stay: { (old new : Self) → stays old new → faults new ≡ faults old };
}
