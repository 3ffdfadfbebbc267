//! What the lines of a text of edits are.

ghost use Rattle.std.specs.Prelude.{◌≡◌, Some, IfSome};
ghost use Rattle.ags_certtext.specs.declared.statements.Statement.{Statement};
ghost use Rattle.ags_certtext.specs.Spelling.{States as StatesInCert};
ghost use Rattle.ags_edits.specs.declared.statements.EditLine.{EditLine};
ghost use Rattle.ags_edits.specs.declared.statements.RowEdit.{RowEdit};
ghost use Rattle.ags_edits.specs.declared.statements.WordEdit.{WordEdit};
ghost use Rattle.ags_edits.specs.Operand.{AreOperands, IsRowEdit, IsShared, IsWordEdit, line_of};
ghost use Rattle.ags_edits.specs.Spelling.{States};

use crate::keywords::{Keyword, keyword_named};
use crate::statements::{EditLine, RowEdit, WordEdit};
use ags_certtext::{CertLines, Statement, Table, read_address, read_row, read_word};
use ags_frame::Statements;
use ags_statements::read_count;
use ags_text::{are_blanks, split_field};

/// The location and the word that a text's fields state.
fn read_word_edit(text: &[u8]) -> Option<WordEdit>
    ensures found { IfSome result (IsWordEdit text.now) }
    ensures only { (its : WordEdit) → IsWordEdit text.now its → result ≡ Some its }
{
    let (place, behind) = split_field(text);
    let (digits, rest) = split_field(behind);
    let location = read_address(place)?;
    let word = read_word(digits)?;
    are_blanks(rest).then_some(WordEdit { location, word })
}

/// The row's number and the row that a text's fields state.
fn read_row_edit(text: &[u8]) -> Option<RowEdit>
    ensures found { IfSome result (IsRowEdit text.now) }
    ensures only { (its : RowEdit) → IsRowEdit text.now its → result ≡ Some its }
{
    let (number, behind) = split_field(text);
    let row = read_count(number)?;
    let new = read_row(behind)?;
    Some(RowEdit { row, new })
}

/// The line of a text of edits that states what a certificate's line states, if there is one.
fn line_of(statement: Statement) -> Option<EditLine>
    ensures { result ≡ line_of statement }
{
    match statement {
        Statement::Entry(Table::Cell, entry) => Some(EditLine::Cell(entry)),
        Statement::Entry(Table::At, entry) => Some(EditLine::At(entry)),
        Statement::Linked(link) => Some(EditLine::Linked(link)),
        Statement::End => Some(EditLine::End),
        _ => None,
    }
}

/// What a line states that a certificate has too.
fn read_shared(line: &[u8]) -> Option<EditLine>
    ensures found { IfSome result (IsShared line.now) }
    ensures only { (its : EditLine) → IsShared line.now its → result ≡ Some its }
{
    match CertLines::read_statement(line) {
        Some(statement) => line_of(statement),
        None => None,
    }
}

/// What a keyword and the text after it state.
fn read_operands(keyword: Keyword, text: &[u8]) -> Option<EditLine>
    ensures found { IfSome result (AreOperands keyword text.now) }
    ensures only { (its : EditLine) → AreOperands keyword text.now its → result ≡ Some its }
{
    match keyword {
        Keyword::Word => Some(EditLine::Word(read_word_edit(text)?)),
        Keyword::Row => Some(EditLine::Row(read_row_edit(text)?)),
    }
}

/// What a line states.
pub(crate) fn read_edit_line(line: &[u8]) -> Option<EditLine>
    ensures found { IfSome result (States line.now) }
    ensures only { (its : EditLine) → States line.now its → result ≡ Some its }
{
    let (name, behind) = split_field(line);
    match keyword_named(name) {
        Some(keyword) => read_operands(keyword, behind),
        None => read_shared(line),
    }
}
