//! What the further lines of a text are.

ghost use Rattle.std.specs.Prelude.{◌≡◌, ℕ, true, false, List};
ghost use Rattle.ags_frame.specs.Line.{IsIdle};
ghost use Rattle.ags_frame.specs.Reading.{Reading, IsReading, line_reading};

use crate::statements::Statements;
use ags_text::{MOST_LINE_BYTES, are_blanks};

/// What a further line is.
#[derive(Clone, Copy, PartialEq, Eq)]
pub enum Line<S> {
    /// It makes a statement.
    Stated(S),
    /// It does nothing.
    Skipped,
    /// It is none of these.
    Malformed,
}

/// Whether a line does nothing, however long it is.
fn is_idle(line: &[u8]) -> bool
    ensures yes { result ≡ true → IsIdle line.now }
    ensures no { result ≡ false → IsIdle line.now → ⊥ }
{
    match line {
        [b'#', ..] => true,
        _ => are_blanks(line),
    }
}

/// What a further line is, after the first.
pub fn read_line<T: Statements>(line: &[u8]) -> Line<T::Statement>
    // The line is read as what it is, and is nothing else.
    ensures found { IsReading T.states line.now (line_reading result) }
    ensures only { (reading : Reading T.Statement) → IsReading T.states line.now reading → reading ≡ line_reading result }
{
    if line.len() > MOST_LINE_BYTES {
        return Line::Malformed;
    }
    T::lines_state_one_thing_at_most();
    if is_idle(line) {
        return Line::Skipped;
    }
    match T::read_statement(line) {
        Some(statement) => Line::Stated(statement),
        None => Line::Malformed,
    }
}
