//! What the kinds that hear do with the words that they keep.

ghost use Rattle.std.specs.Prelude.{◌≡◌, ◌++◌, ◌∷◌, [], OnOk, OnErr};
ghost use Rattle.ags_device.specs.Record.{last_of};

use ags_word::Word;
use std::alloc::AllocError;

/// The last of some words.
pub(crate) fn last_word(words: &[Word]) -> Option<Word>
    ensures { result ≡ last_of words.now }
{
    words.last().copied()
}

/// Puts a word after the others.
pub(crate) fn keep(words: &mut Vec<Word>, word: Word) -> Result<(), AllocError>
    ensures kept { OnOk result (words.new.items ≡ words.old.items ++ word ∷ []) }
    ensures same { OnErr result (words.new.items ≡ words.old.items) }
{
    words.push(word)?;
    Ok(())
}
