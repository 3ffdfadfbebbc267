//! How a run ends that isn't answered as asked.

ghost use Rattle.std.specs.Prelude.{◌≡◌};
ghost use Rattle.ags_advice.specs.Ending.{ending_of};

use std::io::ErrorKind;

/// What was seen of a run from outside, beside its status.
#[derive(Clone, Copy)]
pub struct Seen<'a> {
    /// Whether the words of the command line are UTF-8.
    pub is_text: bool,
    /// The last line of the output, with its line feed or without, and nothing where it isn't known.
    pub line: &'a str,
    /// The name of the file that was looked for last, where it is known: each file is read before the next one is looked for, so
    /// that it is the one at fault.
    pub file: Option<&'a str>,
    /// The name of the certificate, where one is named.
    pub certificate: Option<&'a str>,
    /// Why a file couldn't be read, where one couldn't be and the reason is known.
    pub unread: Option<ErrorKind>,
    /// Why the output couldn't be written, where it couldn't be and the reason is known.
    pub unwritten: Option<ErrorKind>,
}

/// How a run ended, as far as a person is told of it.
#[derive(Clone, Copy)]
pub(crate) enum Ending<'a> {
    /// With a line of its output that says how, such as a fault of a file or a refusal.
    Told {
        /// The number of the status.
        status: u8,
        /// The line.
        line: &'a str,
    },
    /// The words of the command line are none of the forms.
    NoForm,
    /// A word of the command line isn't UTF-8.
    NotText,
    /// A file couldn't be read, for that reason where one is known.
    Unread(Option<ErrorKind>),
    /// The output couldn't be written, for that reason where one is known.
    Unwritten(Option<ErrorKind>),
    /// There was too little memory.
    NoMemory,
}

impl<'a> Ending<'a> {
    /// How a run ended, by the number of its status and what was seen of it.
    pub(crate) fn of(status: u8, seen: Seen<'a>) -> Ending<'a>
        ensures { result ≡ ending_of status seen.entry }
    {
        match status {
            3 if seen.is_text => Ending::NoForm,
            3 => Ending::NotText,
            5 => Ending::Unread(seen.unread),
            6 => Ending::Unwritten(seen.unwritten),
            11 => Ending::NoMemory,
            _ => Ending::Told {
                status,
                line: seen.line,
            },
        }
    }
}
