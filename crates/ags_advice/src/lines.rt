//! The words of a line of output. Between two of them stands one blank.

ghost use Rattle.ags_advice.specs.Line as words;
ghost use Rattle.std.specs.Prelude.{◌≡◌};

/// A text up to its first line feed.
pub(crate) fn first_line(text: &str) -> &str
    ensures { result.now ≡ words.first_line text.now }
{
    match text.split_once('\n') {
        Some((line, _)) => line,
        None => text,
    }
}

/// The word at the start of a text.
pub(crate) fn first_word(text: &str) -> &str
    ensures { result.now ≡ words.first_word text.now }
{
    match text.split_once(' ') {
        Some((word, _)) => word,
        None => text,
    }
}

/// What stands after the word at the start of a text, and nothing where no blank ends it.
fn after_word(text: &str) -> &str
    ensures { result.now ≡ words.after_word text.now }
{
    match text.split_once(' ') {
        Some((_, rest)) => rest,
        None => "",
    }
}

/// What stands after so many words.
pub(crate) fn after_words(count: u8, text: &str) -> &str
    ensures { result.now ≡ words.after_words count text.now }
{
    let mut rest = text;
    for _ in 0..count {
        rest = after_word(rest);
    }
    rest
}
