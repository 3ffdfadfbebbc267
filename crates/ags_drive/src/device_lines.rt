//! The lines that tell of a device.

ghost use Rattle.std.specs.Prelude.{◌≡◌, ◌++◌, codes, IfOk};
ghost use Rattle.std.specs.String.{string_bytes};
ghost use Rattle.ags_drive.specs.Shown.{device_text};

use ags_word::{SixDigits, Word};
use std::alloc::{AllocError, Global};
use std::fmt;

/// The last word that a device has heard, where it has heard one.
#[derive(Clone, Copy)]
struct Last(Option<Word>);

impl fmt::Display for Last {
    ghost use Rattle.std.specs.Prelude.{Some};
    ghost use Rattle.ags_drive.specs.Shown.{last_text};

    ghost output = { λ last. Some (last_text last.0) };

    fn fmt<W: fmt::Write>(&self, f: &mut fmt::Formatter<W>) -> fmt::Result {
        match self.0 {
            Some(word) => {
                let digits = SixDigits(word);
                write!(f, "{digits}")
            }
            None => write!(f, "------"),
        }
    }
}

/// What a device has left and has heard.
#[derive(Clone, Copy)]
pub(crate) struct DeviceCounts {
    /// How many words it will still give.
    pub(crate) left: u64,
    /// How many words it has heard.
    pub(crate) heard: u64,
    /// The last of them.
    pub(crate) last: Option<Word>,
}

/// A device by its number, and what is said of it before that.
#[derive(Clone, Copy)]
struct Told(&'static str, usize, DeviceCounts);

impl fmt::Display for Told {
    ghost use Rattle.std.specs.Prelude.{Some};
    ghost use Rattle.ags_drive.specs.Shown.{device_text};

    ghost output = { λ device. Some (device_text device.0.now device.1 device.2.left device.2.heard device.2.last) };

    fn fmt<W: fmt::Write>(&self, f: &mut fmt::Formatter<W>) -> fmt::Result {
        let what = self.0;
        let number = self.1;
        let left = self.2.left;
        let heard = self.2.heard;
        let last = Last(self.2.last);
        write!(f, "{what}{number} LEFT {left} HEARD {heard} LAST {last}")
    }
}

/// The line of a device, with its line feed.
pub(crate) fn device_line(
    alloc: Global,
    what: &'static str,
    number: usize,
    counts: DeviceCounts,
) -> Result<String, AllocError>
    ensures { IfOk result (λ line. string_bytes line ≡ device_text what.now number counts.left counts.heard counts.last ++ codes "\n") }
{
    let device = Told(what, number, counts);
    format!(in alloc; "{device}\n")
}
