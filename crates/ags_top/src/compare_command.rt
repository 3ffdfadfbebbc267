//! The command `compare`: whether the words of a source are those of a listing.

ghost use Rattle.std.specs.Prelude.{◌≡◌, ◌<◌, IfOk, Some};
ghost use Rattle.std.specs.String.{string_bytes};
ghost use Rattle.ags_asm.specs.Source.{card_words};
ghost use Rattle.ags_outside.specs.Count.{HasCause};
ghost use Rattle.ags_outside.specs.Send.{is_write_fault};
ghost use Rattle.ags_plan.specs.Plan.{WorkAt};
ghost use Rattle.ags_plan.specs.Saying.{Says};
ghost use Rattle.ags_program.specs.Program.{program};
ghost use Rattle.ags_program.specs.Text.{compared_line, word_column};
ghost use Rattle.ags_program.specs.Views.{IsReadMade};
ghost use Rattle.ags_program.specs.Work as work;

use ags_asm::Assembled;
use ags_compare::{Compared, compare};
use ags_image::Image;
use ags_outside::{SendError, Sink};
use ags_plan::send_line;
use ags_program::Status;
use ags_text::FourDigits;
use ags_word::{SixDigits, Word};
use std::alloc::{AllocError, Global};
use std::fmt;

/// The column of a word, if there is one.
#[derive(Clone, Copy)]
struct WordColumn(Option<Word>);

impl fmt::Display for WordColumn {
    ghost output = { λ column. Some (word_column column.0) };

    fn fmt<W: fmt::Write>(&self, f: &mut fmt::Formatter<W>) -> fmt::Result {
        match self.0 {
            Some(word) => {
                let word = SixDigits(word);
                write!(f, "{word}")
            }
            None => f.write_str("------"),
        }
    }
}

/// The line of how two images compare, as it is printed.
#[derive(Clone, Copy)]
struct ComparedLine(Compared);

impl fmt::Display for ComparedLine {
    ghost output = { λ line. Some (compared_line line.0) };

    #[tactic(auto, unfolding(ags_program::specs::Text::compared_line))]
    fn fmt<W: fmt::Write>(&self, f: &mut fmt::Formatter<W>) -> fmt::Result {
        match self.0 {
            Compared::Equal => f.write_str("EQUAL\n"),
            Compared::Differs {
                location,
                left,
                right,
            } => {
                let location = FourDigits(location);
                let left = WordColumn(left);
                let right = WordColumn(right);
                write!(f, "DIFFERS {location} {left} {right}\n")
            }
        }
    }
}

/// The line of how two images compare.
fn compared_line(alloc: Global, compared: &Compared) -> Result<String, AllocError>
    ensures { IfOk result (λ line. string_bytes line ≡ compared_line compared.now) }
{
    let line = ComparedLine(*compared);
    format!(in alloc; "{line}")
}

/// The status of how two images compare.
fn compared_status(compared: &Compared) -> Status
    ensures { result ≡ work.compared_status compared.now }
{
    match compared {
        Compared::Equal => Status::Done,
        Compared::Differs { .. } => Status::No,
    }
}

/// Says how the image of a source's words compares with that of a listing.
pub(crate) fn compare_images<K: Sink>(
    alloc: Global,
    made: &Assembled,
    listed: &Image,
    out: &mut K,
) -> Result<Status, SendError>
    requires { IsReadMade made.now }
    ensures says { Says program (WorkAt (work.CompareImages (card_words made.now) listed.now)) (K.told out.old) (K.told out.new) result }
    ensures faults { HasCause (K.faults out.old) (K.faults out.new) (is_write_fault result) }
{
    let compared = compare(&made.image, listed);
    send_line(compared_line(alloc, &compared), out).and(Ok(compared_status(&compared)))
}
