//! What a line of a script asks for, apart from the lines before it.

ghost use Rattle.std.specs.Prelude.{◌≡◌, ◌||◌, ◌==◌, slice_index};
ghost use Rattle.std.specs.List.{list_all};
ghost use Rattle.ags_text.specs.Field.{is_blank};
ghost use Rattle.ags_script.specs.Reading.{reading, is_skipped, one_command};

use crate::commands::Command;
use crate::verb_commands::verb_command;
use crate::verbs::verb_named;
use ags_text::{MOST_LINE_BYTES, are_blanks, split_field};

/// Whether a line of at most 512 bytes is skipped: it has nothing but blanks, or begins with a number sign.
pub(crate) fn is_skipped(line: &[u8]) -> bool
    ensures { result ≡ (list_all is_blank line.now || slice_index line.now 0 == 35) }
{
    match line {
        [b'#', ..] => true,
        _ => are_blanks(line),
    }
}

/// Whether a line is skipped: it has at most 512 bytes, and nothing but blanks, or begins with a number sign.
#[tactic(auto, unfolding(crate::specs::Reading::reading, crate::specs::Reading::fields_reading))]
pub fn is_skipped_line(line: &[u8]) -> bool
    ensures { result ≡ is_skipped (reading line.now) }
{
    line.len() <= MOST_LINE_BYTES && is_skipped(line)
}

/// The one command that a line asks for, and nothing where it is skipped, a line of keys, or malformed.
#[tactic(auto, unfolding(crate::specs::Reading::reading, crate::specs::Reading::fields_reading))]
pub fn line_command(line: &[u8]) -> Option<Command>
    ensures { result ≡ one_command (reading line.now) }
{
    if line.len() > MOST_LINE_BYTES || is_skipped(line) {
        return None;
    }
    let (name, fields) = split_field(line);
    verb_command(verb_named(name)?, fields)
}
