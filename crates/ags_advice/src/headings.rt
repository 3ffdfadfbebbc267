//! The headings of the lines that tell how a run ended: how such a line goes on, and what its kinds want.

ghost use Rattle.std.specs.Prelude.{◌≡◌, map};
ghost use Rattle.std.specs.Option.{option_map};
ghost use Rattle.ags_advice.specs.Heading as heading;

use crate::hints;
use crate::programs::Program;

/// How a line goes on after its heading.
#[derive(Clone, Copy)]
pub(crate) enum Form {
    /// `CARD c ERROR n Kind` or `LINE n ERROR k Kind`, and what the kind is about.
    FaultOnLine,
    /// `ERROR n Kind`, and what the kind is about.
    Fault,
    /// `k Kind`, and what the kind is about: an item of the verdict on a certificate.
    Item,
    /// `n VERDICT k Kind`: what comes of the edit of that number.
    Edit,
    /// `LINE n`, and what is wrong on that line.
    OnLine,
    /// A word that says what the line is about, and its numbers.
    Topic,
    /// Numbers, or nothing.
    Whole,
    /// The name of a file, which is shown.
    Name,
    /// The name of the file that was looked for last, and a number.
    File,
    /// It is the answer that was asked for, and nothing is said of it.
    Answer,
}

/// A heading: what the first word of a line says that the line tells.
#[derive(Clone, Copy, PartialEq, Eq)]
pub(crate) enum Heading {
    /// A fault of a source.
    Source,
    /// A fault of a machine file.
    Machine,
    /// A fault of a certificate.
    Certificate,
    /// A fault of a listing.
    Listing,
    /// A fault of a script.
    Script,
    /// A fault of a bench script.
    BenchScript,
    /// A fault of a text of times.
    Times,
    /// A fault of a text of scales.
    Scales,
    /// A fault of a text of edits.
    Edits,
    /// An item of the verdict that fails.
    Refused,
    /// What comes of an edit.
    Edit,
    /// A start or a word that the certificate doesn't declare, of a script.
    Outside,
    /// The same at the bench.
    BenchOutside,
    /// No device has a number.
    NoDevice,
    /// A device feeds no register.
    NoFeed,
    /// A case needs more order time than its row's bound.
    Over,
    /// No row holds the start with raw tags.
    StartMixed,
    /// Two tags meet that are unlike.
    Mixed,
    /// No row holds what an order leaves with its tags.
    NotHeld,
    /// A file is absent.
    Absent,
    /// A file is too long.
    Long,
    /// Images differ.
    Differs,
}

/// The words of the headings, whichever program prints them.
const WORDS: [(&str, Heading); 20] = [
    ("SOURCE", Heading::Source),
    ("MACHINE", Heading::Machine),
    ("CERTIFICATE", Heading::Certificate),
    ("LISTING", Heading::Listing),
    ("SCRIPT", Heading::Script),
    ("TIMES", Heading::Times),
    ("SCALES", Heading::Scales),
    ("EDITS", Heading::Edits),
    ("REFUSED", Heading::Refused),
    ("EDIT", Heading::Edit),
    ("OUTSIDE", Heading::Outside),
    ("NODEVICE", Heading::NoDevice),
    ("NOFEED", Heading::NoFeed),
    ("OVER", Heading::Over),
    ("STARTMIXED", Heading::StartMixed),
    ("MIXED", Heading::Mixed),
    ("NOTHELD", Heading::NotHeld),
    ("ABSENT", Heading::Absent),
    ("LONG", Heading::Long),
    ("DIFFERS", Heading::Differs),
];

/// The heading of a word, by the first row that has it.
fn named(rows: &[(&'static str, Heading)], word: &str) -> Option<Heading>
    ensures { result ≡ heading.named (map (λ row. record { word = row.0.now; heading = row.1 }) rows.now) word.now }
{
    for (named, heading) in rows {
        if word == *named {
            return Some(*heading);
        }
    }
    None
}

/// The heading of a word, whichever program prints it.
fn of_word(word: &str) -> Option<Heading>
    ensures { result ≡ heading.named heading.headings word.now }
{
    named(&WORDS, word)
}

impl Heading {
    /// The heading of a word that a program prints, where it is one.
    pub(crate) fn of(program: Program, word: &str) -> Option<Heading>
        ensures { result ≡ heading.heading_of program word.now }
    {
        match (program, of_word(word)) {
            (Program::AgsBench, Some(Heading::Script)) => Some(Heading::BenchScript),
            (Program::AgsBench, Some(Heading::Outside)) => Some(Heading::BenchOutside),
            (_, heading) => heading,
        }
    }

    /// How a line goes on after it.
    pub(crate) fn form(self) -> Form
        ensures { result ≡ heading.form_of self }
    {
        match self {
            Heading::Source => Form::FaultOnLine,
            Heading::Machine => Form::Fault,
            Heading::Certificate => Form::FaultOnLine,
            Heading::Listing => Form::FaultOnLine,
            Heading::Script => Form::FaultOnLine,
            Heading::BenchScript => Form::FaultOnLine,
            Heading::Times => Form::FaultOnLine,
            Heading::Scales => Form::FaultOnLine,
            Heading::Edits => Form::FaultOnLine,
            Heading::Refused => Form::Item,
            Heading::Edit => Form::Edit,
            Heading::Outside => Form::Topic,
            Heading::BenchOutside => Form::Topic,
            Heading::NoDevice => Form::OnLine,
            Heading::NoFeed => Form::OnLine,
            Heading::Over => Form::Whole,
            Heading::StartMixed => Form::Whole,
            Heading::Mixed => Form::Whole,
            Heading::NotHeld => Form::Whole,
            Heading::Absent => Form::Name,
            Heading::Long => Form::File,
            Heading::Differs => Form::Answer,
        }
    }

    /// What a kind wants of a line with this heading.
    pub(crate) fn wanted(self, kind: &str) -> &'static str
        ensures { result.now ≡ heading.wanted_of self kind.now }
    {
        match self {
            Heading::Source => hints::source(kind),
            Heading::Machine => hints::machine(kind),
            Heading::Certificate => hints::certificate(kind),
            Heading::Listing => hints::listing(kind),
            Heading::Script => hints::script(kind),
            Heading::BenchScript => hints::bench_script(kind),
            Heading::Times => hints::times(kind),
            Heading::Scales => hints::scales(kind),
            Heading::Edits => hints::edits(kind),
            Heading::Refused => hints::verdict(kind),
            Heading::Edit => hints::edit(kind),
            Heading::Outside => hints::outside(kind),
            Heading::BenchOutside => hints::bench_outside(kind),
            Heading::NoDevice => {
                "FEED and DETACH name a device that is there, from 1 on; after a DETACH the numbers close up"
            }
            Heading::NoFeed => {
                "FEED names a device that feeds an input register of the machine; a recorder feeds none"
            }
            Heading::Over => {
                "a row needs its order's time and, but at DLY, the least bound of a row that covers what is next; a row without a TIME line has 20,000; rows of a subroutine may be written once for each caller"
            }
            Heading::StartMixed => {
                "a row that holds the start has ANY or RAW for A and for Q, or no ROW line in the text of scales"
            }
            Heading::Mixed => {
                "two tags that meet have to be one scale, or both raw: mend the declaration or the ROW line, which bin/ags-explain -r shows, or shift the word first"
            }
            Heading::NotHeld => {
                "a row at NEXT that covers what this order leaves has to have its tags or ANY: mend the tags there, or of this row; docs/SCALES.md has what each order leaves; a cell without a CELL line is raw"
            }
            Heading::Absent => "there is no file of this name",
            Heading::Long => {
                "it is longer than is read: at most 65,536 bytes of a machine file, 67,108,864 of a certificate, 134,217,728 of a listing, 4,194,304 of any other"
            }
            Heading::Differs => "",
        }
    }

    /// What its text begins with, for a text whose first line says what it is.
    pub(crate) fn opening(self) -> Option<&'static str>
        ensures { option_map (λ opening. opening.now) result ≡ heading.opening_of self }
    {
        match self {
            Heading::Certificate => {
                Some("this is read as a certificate, whose line 1 is AGSCERT 1 or AGSCERT 2")
            }
            Heading::Times => Some("this is read as a text of times, whose line 1 is AGSTIME 1"),
            Heading::Scales => Some("this is read as a text of scales, whose line 1 is AGSSCALE 1"),
            Heading::Edits => Some("this is read as a text of edits, whose line 1 is AGSEDIT 1"),
            _ => None,
        }
    }
}
