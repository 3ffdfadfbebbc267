//! What the lines of a text of scales are.

ghost use Rattle.std.specs.Prelude.{◌≡◌, Some, IfSome};
ghost use Rattle.ags_tags.specs.declared.statements.Entry.{Entry};
ghost use Rattle.ags_tags.specs.declared.statements.RowEntry.{RowEntry};
ghost use Rattle.ags_tags.specs.declared.statements.ScaleLine.{ScaleLine};
ghost use Rattle.ags_tags.specs.Spelling.{States};
ghost use Rattle.ags_tags.specs.Operand.{IsEntry, IsRowEntry, AreOperands};

use crate::keywords::{Keyword, keyword_named};
use crate::numbers::{read_row_tag, read_scale};
use crate::statements::{Entry, RowEntry, ScaleLine};
use crate::tags::RowTags;
use ags_certtext::read_address;
use ags_statements::read_count;
use ags_text::{are_blanks, split_field};

/// The address and the scale that a text's fields state.
fn read_entry(text: &[u8]) -> Option<Entry>
    ensures found { IfSome result (IsEntry text.now) }
    ensures only { (its : Entry) → IsEntry text.now its → result ≡ Some its }
{
    let (place, behind) = split_field(text);
    let (number, rest) = split_field(behind);
    let address = read_address(place)?;
    let scale = read_scale(number)?;
    are_blanks(rest).then_some(Entry { address, scale })
}

/// The row and the tags that a text's fields state.
fn read_row(text: &[u8]) -> Option<RowEntry>
    ensures found { IfSome result (IsRowEntry text.now) }
    ensures only { (its : RowEntry) → IsRowEntry text.now its → result ≡ Some its }
{
    let (number, behind) = split_field(text);
    let (first, others) = split_field(behind);
    let (second, rest) = split_field(others);
    let row = read_count(number)?;
    let a = read_row_tag(first)?;
    let q = read_row_tag(second)?;
    are_blanks(rest).then_some(RowEntry {
        row,
        tags: RowTags { a, q },
    })
}

/// What a keyword and the text after it state.
fn read_operands(keyword: Keyword, text: &[u8]) -> Option<ScaleLine>
    ensures found { IfSome result (AreOperands keyword text.now) }
    ensures only { (its : ScaleLine) → AreOperands keyword text.now its → result ≡ Some its }
{
    match keyword {
        Keyword::Entry(table) => Some(ScaleLine::Scaled(table, read_entry(text)?)),
        Keyword::Row => Some(ScaleLine::Tagged(read_row(text)?)),
        Keyword::End => are_blanks(text).then_some(ScaleLine::End),
    }
}

/// What a line states.
pub(crate) fn read_scale_line(line: &[u8]) -> Option<ScaleLine>
    ensures found { IfSome result (States line.now) }
    ensures only { (its : ScaleLine) → States line.now its → result ≡ Some its }
{
    let (name, behind) = split_field(line);
    let keyword = keyword_named(name)?;
    read_operands(keyword, behind)
}
