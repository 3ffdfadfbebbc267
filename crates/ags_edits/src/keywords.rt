//! The keywords of the lines that certificates don't have.

ghost use Rattle.std.specs.Prelude.{◌≡◌, IfSome, Some};
ghost use Rattle.ags_edits.specs.declared.keywords.Keyword.{Keyword};
ghost use Rattle.ags_edits.specs.Operand.{keyword_name};

/// The first field of a line that certificates have in another form, or not at all.
#[derive(Clone, Copy)]
pub(crate) enum Keyword {
    /// WORD.
    Word,
    /// ROW.
    Row,
}

/// The keyword of a name, letter for letter.
pub(crate) fn keyword_named(text: &[u8]) -> Option<Keyword>
    ensures found { IfSome result (λ keyword. keyword_name keyword ≡ text.now) }
    ensures only { (keyword : Keyword) → keyword_name keyword ≡ text.now → result ≡ Some keyword }
{
    match text {
        b"WORD" => Some(Keyword::Word),
        b"ROW" => Some(Keyword::Row),
        _ => None,
    }
}
