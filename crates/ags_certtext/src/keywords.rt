//! The keywords that further lines begin with.

ghost use Rattle.std.specs.Prelude.{◌≡◌, IfSome, Some};
ghost use Rattle.ags_certtext.specs.declared.keywords.Keyword.{Keyword};
ghost use Rattle.ags_certtext.specs.Operand.{keyword_name};

use crate::kinds::Table;

/// The first field of a line.
#[derive(Clone, Copy)]
pub(crate) enum Keyword {
    /// START.
    Start,
    /// That of a table.
    Entry(Table),
    /// MAY.
    May,
    /// ROW.
    Row,
    /// LINK.
    Link,
    /// END.
    End,
}

/// The keyword of a name, letter for letter.
pub(crate) fn keyword_named(text: &[u8]) -> Option<Keyword>
    ensures found { IfSome result (λ keyword. keyword_name keyword ≡ text.now) }
    ensures only { (keyword : Keyword) → keyword_name keyword ≡ text.now → result ≡ Some keyword }
{
    match text {
        b"START" => Some(Keyword::Start),
        b"MAY" => Some(Keyword::May),
        b"ROW" => Some(Keyword::Row),
        b"LINK" => Some(Keyword::Link),
        b"END" => Some(Keyword::End),
        _ => Table::named(text).map(Keyword::Entry),
    }
}
