//! What is found in the last line of an output, and how it is shown to a person.

ghost use Rattle.std.specs.Prelude.{◌≡◌};
ghost use Rattle.std.specs.Option.{option_map};
ghost use Rattle.ags_advice.specs.Finding as finding;

use crate::headings::{Form, Heading};
use crate::lines::{after_words, first_word};
use ags_text::read_decimal;
use std::fmt;

/// The number of the line of a file that a line of output names, where it names one.
fn number_in(form: Form, line: &str) -> Option<u32>
    ensures { result ≡ finding.number_in form line.now }
{
    match form {
        Form::FaultOnLine | Form::OnLine => {
            read_decimal(first_word(after_words(2, line)).as_bytes())
        }
        _ => None,
    }
}

/// What of a line of output is shown.
fn shown_in(form: Form, line: &str) -> &str
    ensures { result.now ≡ finding.shown_in form line.entry.now }
{
    match form {
        Form::FaultOnLine => after_words(5, line),
        Form::Fault => after_words(3, line),
        Form::Item => after_words(2, line),
        Form::Name => after_words(1, line),
        _ => line,
    }
}

/// The kind that a line of output tells.
fn kind_in(form: Form, line: &str) -> &str
    ensures { result.now ≡ finding.kind_in form line.entry.now }
{
    match form {
        Form::Edit => first_word(after_words(4, line)),
        Form::Topic => first_word(after_words(1, line)),
        _ => first_word(shown_in(form, line)),
    }
}

/// The name of a file, where it is known.
pub(crate) fn name_of(file: Option<&str>) -> &str
    ensures { result.now ≡ finding.name_of (option_map (λ name. name.now) file.entry) }
{
    match file {
        Some(name) => name,
        None => "a file",
    }
}

/// Where something is wrong: in a file, on a line of it where one is told.
#[derive(Clone, Copy)]
struct Place<'a> {
    /// The file's name.
    file: &'a str,
    /// The number of the line, from 1.
    number: Option<u32>,
}

/// Prints `file:`, or `file:line:`, and a blank.
impl fmt::Display for Place<'_> {
    ghost use Rattle.std.specs.Prelude.{Some};
    ghost use Rattle.ags_advice.specs.Finding as finding;

    ghost output = { λ place. Some (finding.place_text place.file.now place.number) };

    fn fmt<W: fmt::Write>(&self, f: &mut fmt::Formatter<W>) -> fmt::Result {
        let file = self.file;
        match self.number {
            Some(number) => write!(f, "{file}:{number}: "),
            None => write!(f, "{file}: "),
        }
    }
}

/// Whether a line of output tells that the first line of a text is none that it may have.
fn is_bad_opening(kind: &str, number: Option<u32>) -> bool
    ensures { result ≡ finding.is_bad_opening kind.now number }
{
    match number {
        Some(number) => number == 1 && kind == "BadLine",
        None => false,
    }
}

/// What would be right: of a first line what the text begins with, and else what the kind wants.
fn wanted_of_line(heading: Heading, kind: &str, number: Option<u32>) -> &'static str
    ensures { result.now ≡ finding.wanted_of_line heading kind.now number }
{
    if is_bad_opening(kind, number) {
        match heading.opening() {
            Some(opening) => opening,
            None => heading.wanted(kind),
        }
    } else {
        heading.wanted(kind)
    }
}

/// What is found in a line of output with a heading.
#[derive(Clone, Copy)]
pub(crate) struct Finding<'a> {
    /// The heading.
    pub(crate) heading: Heading,
    /// The name of the certificate.
    pub(crate) certificate: &'a str,
    /// The name of the file that was looked for last.
    pub(crate) file: &'a str,
    /// The line.
    pub(crate) line: &'a str,
}

/// Prints the place, what is shown of the line, and what would be right. A refusal is of the certificate, which isn't always the last
/// file.
impl fmt::Display for Finding<'_> {
    ghost use Rattle.std.specs.Prelude.{Some};
    ghost use Rattle.ags_advice.specs.Finding as finding;

    ghost output = { λ it. Some (finding.finding_text it.heading it.certificate.now it.file.now it.line.now) };

    fn fmt<W: fmt::Write>(&self, f: &mut fmt::Formatter<W>) -> fmt::Result {
        let form = self.heading.form();
        let number = number_in(form, self.line);
        let wanted = wanted_of_line(self.heading, kind_in(form, self.line), number);
        let shown = shown_in(form, self.line);
        let place = Place {
            file: self.file,
            number,
        };
        match form {
            Form::Answer => Ok(()),
            Form::Item => {
                let place = Place {
                    file: self.certificate,
                    number: None,
                };
                write!(f, "{place}{shown}: {wanted} (docs/CHECKER.md, The verdict)")
            }
            Form::Name => write!(f, "{shown}: {wanted}"),
            Form::File => write!(f, "{place}{wanted}"),
            _ => write!(f, "{place}{shown}: {wanted}"),
        }
    }
}
