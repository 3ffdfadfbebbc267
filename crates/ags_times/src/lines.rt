//! What the lines of a text of times are.

ghost use Rattle.std.specs.Prelude.{◌≡◌, ℕ, List, Some, IfSome};
ghost use Rattle.ags_times.specs.declared.lines.RowBound.{RowBound};
ghost use Rattle.ags_times.specs.declared.lines.TimesLine.{TimesLine};
ghost use Rattle.ags_times.specs.Spelling.{States};
ghost use Rattle.ags_times.specs.Gathering.{AreBoundFields, AreFieldsOf};

use ags_statements::read_count;
use ags_text::{are_blanks, split_field};

/// The bound of a row, as a line states it.
#[derive(Clone, Copy)]
pub struct RowBound {
    /// The row's number; the first row of the certificate is 1.
    pub row: u32,
    /// The bound in microseconds.
    pub bound: u32,
}

/// What a line states.
#[derive(Clone, Copy)]
pub enum TimesLine {
    /// The bound of a row.
    Bound(RowBound),
    /// That the text ends.
    End,
}

/// The bound that a text's fields state.
fn read_bound(text: &[u8]) -> Option<RowBound>
    ensures found { IfSome result (AreBoundFields text.now) }
    ensures only { (its : RowBound) → AreBoundFields text.now its → result ≡ Some its }
{
    let (row, behind) = split_field(text);
    let (bound, rest) = split_field(behind);
    let row = read_count(row)?;
    let bound = read_count(bound)?;
    are_blanks(rest).then_some(RowBound { row, bound })
}

/// What a line with this name before its other fields states.
fn read_named(name: &[u8], behind: &[u8]) -> Option<TimesLine>
    ensures found { IfSome result (AreFieldsOf name.now behind.now) }
    ensures only { (its : TimesLine) → AreFieldsOf name.now behind.now its → result ≡ Some its }
{
    if name == b"TIME".as_slice() {
        return Some(TimesLine::Bound(read_bound(behind)?));
    }
    if name == b"END".as_slice() && are_blanks(behind) {
        return Some(TimesLine::End);
    }
    None
}

/// What a line states.
pub(crate) fn read_times_line(line: &[u8]) -> Option<TimesLine>
    ensures found { IfSome result (States line.now) }
    ensures only { (its : TimesLine) → States line.now its → result ≡ Some its }
{
    let (name, behind) = split_field(line);
    read_named(name, behind)
}
