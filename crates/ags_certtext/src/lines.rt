//! What the lines of a certificate are.

ghost use Rattle.std.specs.Prelude.{◌≡◌, ℕ, List, Some, IfSome};
ghost use Rattle.ags_frame.specs.Reading.{opening_reading};
ghost use Rattle.ags_certtext.specs.declared.statements.Statement.{Statement};
ghost use Rattle.ags_certtext.specs.Operand.{AreOperands};
ghost use Rattle.ags_certtext.specs.Reading.{Reading, IsFirstReading};

use crate::keywords::{Keyword, keyword_named};
use crate::operands::{read_entry, read_link, read_place, read_row};
use crate::statements::Statement;
use ags_frame::{Opening, Statements, read_opening};
use ags_text::{are_blanks, split_field};

/// The latest version of certificates.
const LATEST_VERSION: u32 = 2;

/// The statement of a keyword and the text after it.
fn read_operands(keyword: Keyword, text: &[u8]) -> Option<Statement>
    ensures found { IfSome result (λ statement. AreOperands keyword text.now statement) }
    ensures only { (statement : Statement) → AreOperands keyword text.now statement → result ≡ Some statement }
{
    match keyword {
        Keyword::Start => Some(Statement::Start(read_place(text)?)),
        Keyword::Entry(table) => Some(Statement::Entry(table, read_entry(text)?)),
        Keyword::May => Some(Statement::May(read_place(text)?)),
        Keyword::Row => Some(Statement::Row(read_row(text)?)),
        Keyword::Link => Some(Statement::Linked(read_link(text)?)),
        Keyword::End => are_blanks(text).then_some(Statement::End),
    }
}

/// The further lines of a certificate: what they state.
pub struct CertLines;

impl Statements for CertLines {
    ghost use Rattle.ags_certtext.specs.Spelling.{States};

    type Statement = Statement;

    ghost states = { States };

    fn read_statement(line: &[u8]) -> Option<Statement> {
        let (name, behind) = split_field(line);
        let keyword = keyword_named(name)?;
        read_operands(keyword, behind)
    }

    fn lines_state_one_thing_at_most() {}
}

/// What a certificate's first line is (docs/CERTIFICATE.md, Lines).
pub fn read_first_line(line: &[u8]) -> Opening
    // The line is read as what it is, and is nothing else.
    ensures found { IsFirstReading line.now (opening_reading result) }
    ensures only { (reading : Reading) → IsFirstReading line.now reading → reading ≡ opening_reading result }
{
    read_opening(line, b"AGSCERT", LATEST_VERSION)
}
