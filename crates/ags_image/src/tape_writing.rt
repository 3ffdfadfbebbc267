//! The writer of tapes.

ghost use Rattle.std.specs.Prelude.{◌≡◌, ◌<◌, ◌++◌, codes, OnOk, OnErr};
ghost use Rattle.ags_outside.specs.Count.{HasCause};
ghost use Rattle.ags_outside.specs.Send.{is_write_fault};
ghost use Rattle.ags_outside.specs.Sink.{appended, WroteFront};
ghost use Rattle.ags_image.specs.Tape.{tape_line, tape_text};

use crate::images::Image;
use ags_outside::{SendError, Sink, send};
use ags_text::octal4;
use ags_word::{LOCATIONS, Word};

/// A location's line, with its line feed.
fn line_of(location: u16, word: Word) -> [u8; 12]
    ensures { result ≡ tape_line location word ++ codes "\n" }
{
    let [a, b, c, d] = octal4(u32::from(location));
    let [e, f, g, h, i, j] = word.octal6();
    [a, b, c, d, b' ', e, f, g, h, i, j, b'\n']
}

/// Sends the tape of an image, a line at a time (docs/SOURCE.md, Tape).
pub fn send_tape<K: Sink>(image: &Image, out: &mut K) -> Result<(), SendError>
    ensures sent { OnOk result (K.told out.new ≡ appended (K.told out.old) (tape_text image.now)) }
    ensures front { OnErr result (WroteFront (K.told out.old) (K.told out.new) (tape_text image.now)) }
    ensures faults { HasCause (K.faults out.old) (K.faults out.new) (is_write_fault result) }
{
    for location in 0..LOCATIONS {
        let Some(word) = image.get(location) else {
            continue;
        };
        send(out, &line_of(location, word))?;
    }
    Ok(())
}
