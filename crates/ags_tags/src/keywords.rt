//! The keywords that the lines begin with.

ghost use Rattle.std.specs.Prelude.{◌≡◌, IfSome, Some};
ghost use Rattle.ags_tags.specs.declared.keywords.Keyword.{Keyword};
ghost use Rattle.ags_tags.specs.Operand.{keyword_name};

use crate::statements::Table;

/// The first field of a line.
#[derive(Clone, Copy)]
pub(crate) enum Keyword {
    /// That of a table: CELL, IN or OUT.
    Entry(Table),
    /// ROW.
    Row,
    /// END.
    End,
}

/// The keyword of a name, letter for letter.
pub(crate) fn keyword_named(text: &[u8]) -> Option<Keyword>
    ensures found { IfSome result (λ keyword. keyword_name keyword ≡ text.now) }
    ensures only { (keyword : Keyword) → keyword_name keyword ≡ text.now → result ≡ Some keyword }
{
    match text {
        b"IN" => Some(Keyword::Entry(Table::In)),
        b"OUT" => Some(Keyword::Entry(Table::Out)),
        b"ROW" => Some(Keyword::Row),
        b"END" => Some(Keyword::End),
        b"CELL" => Some(Keyword::Entry(Table::Cell)),
        _ => None,
    }
}
