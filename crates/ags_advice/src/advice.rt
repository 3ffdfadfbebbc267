//! What a person is told of a run, in one line.

ghost use Rattle.std.specs.Prelude.{◌≡◌};
ghost use Rattle.std.specs.Option.{option_map};
ghost use Rattle.ags_advice.specs.Advice.{advice_text, is_silent, is_answer, said};
ghost use Rattle.ags_advice.specs.Heading.{heading_of};
ghost use Rattle.ags_advice.specs.Line as words;

use crate::endings::{Ending, Seen};
use crate::findings::{Finding, name_of};
use crate::headings::Heading;
use crate::lines::{first_line, first_word};
use crate::programs::Program;
use crate::reasons::{why_unread, why_unwritten};
use std::fmt;
use std::io::ErrorKind;

/// What a person is told of a run.
#[derive(Clone, Copy)]
pub struct Advice<'a> {
    /// The program.
    program: Program,
    /// The name of the certificate, where one is named.
    certificate: Option<&'a str>,
    /// The name of the file that was looked for last, where it is known.
    file: Option<&'a str>,
    /// How the run ended.
    ending: Ending<'a>,
}

/// Whether a line is the answer that was asked for.
fn is_answer(program: Program, line: &str) -> bool
    ensures { result ≡ is_answer (heading_of program (words.first_word (words.first_line line.now))) }
{
    Heading::of(program, first_word(first_line(line))) == Some(Heading::Differs)
}

impl<'a> Advice<'a> {
    /// What a person is told of a run of a program, by the number of its status (docs/COMMANDS.md) and what was seen of it, and nothing
    /// where it was answered as asked: with status 0, with the answer of `compare`, or to a reader who has closed the output.
    pub fn of(program: Program, status: u8, seen: Seen<'a>) -> Option<Advice<'a>>
        ensures { option_map (λ told. advice_text told.program (option_map (λ name. name.now) told.certificate) (option_map (λ name. name.now) told.file) told.ending) result ≡ said program status seen.entry }
    {
        let advice = Advice {
            program,
            certificate: seen.certificate,
            file: seen.file,
            ending: Ending::of(status, seen),
        };
        if status == 0 || advice.is_silent() {
            None
        } else {
            Some(advice)
        }
    }

    /// Whether nothing is said: the line is the answer that was asked for, or whoever reads the output has closed it.
    fn is_silent(&self) -> bool
        ensures { result ≡ is_silent self.now.program self.now.ending }
    {
        match self.ending {
            Ending::Told { line, .. } => is_answer(self.program, line),
            Ending::Unwritten(Some(ErrorKind::BrokenPipe)) => true,
            _ => false,
        }
    }
}

/// The last line of the output, with the status.
#[derive(Clone, Copy)]
struct LastLine<'a> {
    program: Program,
    status: u8,
    certificate: &'a str,
    file: &'a str,
    line: &'a str,
}

/// Prints what is found in the line, and the status alone where the line has no heading.
impl fmt::Display for LastLine<'_> {
    ghost use Rattle.std.specs.Prelude.{Some};
    ghost use Rattle.ags_advice.specs.Advice.{told_text};

    ghost output = { λ it. Some (told_text it.program it.status it.certificate.now it.file.now it.line.now) };

    fn fmt<W: fmt::Write>(&self, f: &mut fmt::Formatter<W>) -> fmt::Result {
        let LastLine {
            program,
            status,
            certificate,
            file,
            line,
        } = *self;
        match Heading::of(program, first_word(line)) {
            Some(heading) => {
                let finding = Finding {
                    heading,
                    certificate,
                    file,
                    line,
                };
                write!(f, "{finding}")
            }
            None => write!(f, "the run ended with status {status} (docs/COMMANDS.md)"),
        }
    }
}

/// Prints the advice, without a line feed.
impl fmt::Display for Advice<'_> {
    ghost use Rattle.std.specs.Prelude.{Some};
    ghost use Rattle.std.specs.Option.{option_map};
    ghost use Rattle.ags_advice.specs.Advice.{advice_text};

    ghost output = { λ it. Some (advice_text it.program (option_map (λ name. name.now) it.certificate) (option_map (λ name. name.now) it.file) it.ending) };

    fn fmt<W: fmt::Write>(&self, f: &mut fmt::Formatter<W>) -> fmt::Result {
        match self.ending {
            Ending::Told { status, line } => {
                let last = LastLine {
                    program: self.program,
                    status,
                    certificate: name_of(self.certificate),
                    file: name_of(self.file),
                    line: first_line(line),
                };
                write!(f, "{last}")
            }
            Ending::NoForm => f.write_str(self.program.forms()),
            Ending::NotText => f.write_str("a word of the command line isn't UTF-8"),
            Ending::Unread(reason) => {
                let name = name_of(self.file);
                let reason = why_unread(reason);
                write!(f, "{name}: {reason}")
            }
            Ending::Unwritten(reason) => f.write_str(why_unwritten(reason)),
            Ending::NoMemory => f.write_str("memory ran out"),
        }
    }
}
