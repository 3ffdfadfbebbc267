//! The form of a tape's lines.

use crate::columns::read_columns;
use crate::forms::LineForm;
use ags_word::Word;

/// A tape: each of its lines puts a word at a place.
pub(crate) struct Tape;

impl LineForm for Tape {
    ghost use Rattle.ags_image.specs.Tape.{tape_form};

    ghost form = { tape_form };

    #[tactic(auto, unfolding(crate::specs::Tape::tape_form))]
    fn read(line: &[u8]) -> Option<Option<(u16, Word)>> {
        if line.len() != 11 || line[4] != b' ' {
            return None;
        }
        match read_columns(&line[..4], &line[5..]) {
            Some(placed) => Some(Some(placed)),
            None => None,
        }
    }
}
