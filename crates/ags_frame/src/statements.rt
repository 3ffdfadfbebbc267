//! What the further lines of a text state.

ghost use Rattle.std.specs.Prelude.{◌≡◌, ◌⊎◌, ℕ, List, IfSome, Some};
ghost use Rattle.ags_frame.specs.Line.{IsIdle};

/// What the further lines of a text state, and how that is read.
pub trait Statements {
    /// What a line states.
    type Statement;

    /// The line states this, however long it is.
    ghost states: { List ℕ → Self.Statement → Type 0 };

    /// The statement that a line makes, however long it is.
    fn read_statement(line: &[u8]) -> Option<Self::Statement>
        ensures found { IfSome result (states line.now) }
        ensures only { (statement : Self.Statement) → states line.now statement → result ≡ Some statement };

    /// A law, which does nothing: each line states something or nothing, and one thing at most, and a line that is skipped
    /// states nothing.
    fn lines_state_one_thing_at_most()
        ensures some { (line : List ℕ) → ((statement : Self.Statement) × states line statement) ⊎ ((statement : Self.Statement) → states line statement → ⊥) }
        ensures one { (line : List ℕ) (one other : Self.Statement) → states line one → states line other → one ≡ other }
        ensures idle { (line : List ℕ) (statement : Self.Statement) → IsIdle line → states line statement → ⊥ };
}
