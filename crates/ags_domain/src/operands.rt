//! The operands that an operation is told to overflow at.

ghost use Rattle.std.specs.Prelude.{◌≡◌, Ok, Err, if◌then◌else◌};
ghost use Rattle.ags_domain.specs.Candidates.{operands};

use ags_word::Word;

/// The words of A, of Q and of the cell at which an operation overflows; what the operation doesn't take is 0.
#[derive(Clone, Copy, Debug, PartialEq, Eq)]
pub struct Operands {
    /// The word of A.
    pub a: Word,
    /// The word of Q.
    pub q: Word,
    /// The word of the cell.
    pub m: Word,
}

/// One try of an operation: the word that it leaves in A, or its operands where it overflows.
pub(crate) fn one_try(
    word: Word,
    overflows: bool,
    a: Word,
    q: Word,
    m: Word,
) -> Result<Word, Operands>
    ensures { result ≡ if overflows then Err (operands a q m) else Ok word }
{
    if overflows {
        Err(Operands { a, q, m })
    } else {
        Ok(word)
    }
}
