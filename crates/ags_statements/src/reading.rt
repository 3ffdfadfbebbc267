//! The reading of a whole text.

ghost use Rattle.std.specs.Prelude.{◌≡◌, ◌≤◌, ℕ, List, [], IfOk, IfErr, length, reverse};
ghost use Rattle.ags_text.specs.Field.{IsField};
ghost use Rattle.ags_frame.specs.Fault.{reading_fault};
ghost use Rattle.ags_frame.specs.Opening.{IsVersion, Opens};
ghost use Rattle.ags_frame.specs.Reading.{Reading, IsFirstReading};
ghost use Rattle.ags_statements.specs.Text.{IsTextOf, IsRefused};
ghost use Rattle.ags_statements.specs.Taking.{TakesLine, TellsLine, error_at};

use crate::gathers::{Gathers, Untaken};
use ags_frame::{Line, Opening, line_has_one_reading, read_line, read_opening};
use ags_text::Lines;

/// Why a text isn't read.
#[derive(Drop)]
pub enum TextError<F> {
    /// Its first faulty line, counted from 1, has this fault; where its end is missing it is the line after the last.
    At {
        /// The line's number.
        line: u32,
        /// Its fault.
        fault: F,
    },
    /// There was no memory.
    NoMemory,
}

/// Takes a further line.
fn take_line<G: Gathers>(
    gathering: &mut G,
    version: u32,
    line: &[u8],
) -> Result<(), Untaken<G::Fault>>
    ensures taken { IfOk result (λ _. TakesLine G.Statements.states G.gathered (G.faults gathering.old) version gathering.old line.now gathering.new) }
    ensures untaken { IfErr result (TellsLine G.Statements.states G.gathered (G.faults gathering.old) version gathering.old line.now) }
    ensures stays { G.stays gathering.old gathering.new }
{
    match read_line::<G>(line) {
        Line::Stated(statement) => gathering.take(version, statement),
        Line::Skipped => Ok(()),
        Line::Malformed => Err(Untaken::Faulty(gathering.bad_line())),
    }
}

/// The error of a line that isn't taken.
fn at_line<F>(line: u32, why: Untaken<F>) -> TextError<F>
    ensures { result ≡ error_at line why }
{
    match why {
        Untaken::Faulty(fault) => TextError::At { line, fault },
        Untaken::NoMemory => TextError::NoMemory,
    }
}

/// The version that the first line opens, or its fault.
fn take_first<G: Gathers>(
    gathering: &G,
    name: &[u8],
    latest: u32,
    line: &[u8],
) -> Result<u32, G::Fault>
    requires { IsField name.now }
    ensures opens { IfOk result (λ version. IsVersion latest version × Opens name.now version line.now) }
    ensures refused { IfErr result (λ fault. (reading : Reading G.Statement) × IsFirstReading name.now latest line.now reading
        × (reading_fault (G.faults gathering.now) [] reading ≡ Some fault)) }
{
    match read_opening(line, name, latest) {
        Opening::Version(version) => Ok(version),
        Opening::Another => Err(gathering.version()),
        Opening::Malformed => Err(gathering.bad_line()),
    }
}

/// Reads a text of at most 4,194,304 bytes with this name, of which there are versions from 1 to the latest: what is gathered of its
/// statements, or its first fault. A line's number counts every line, skipped ones too; where the end is missing it is the line after
/// the last. `NoMemory` may come at any text, and says nothing of it.
pub fn read_text<G: Gathers>(
    bytes: &[u8],
    name: &[u8],
    latest: u32,
    gathering: G,
) -> Result<G, TextError<G::Fault>>
    requires few { length bytes.now ≤ 4194304 }
    requires name { IsField name.now }
    requires nothing { G.gathered gathering [] }
    // The text is without a fault, and its statements are gathered; or its first fault is this one.
    ensures read { IfOk result (λ all. (statements : List G.Statement)
        × IsTextOf name.now latest G.Statements.states (G.faults gathering) bytes.now statements × G.gathered all (reverse statements)) }
    ensures refused { IfErr result (IsRefused name.now latest G.Statements.states (G.faults gathering) bytes.now) }
    ensures stays { IfOk result (λ all. G.stays gathering all) }
{
    line_has_one_reading::<G>();
    let mut gathering = gathering;
    let mut lines = Lines::of(bytes);
    let Some(first) = lines.next() else {
        return Err(TextError::At {
            line: 1,
            fault: gathering.bad_line(),
        });
    };
    let version = match take_first(&gathering, name, latest, first.bytes) {
        Ok(version) => version,
        Err(fault) => return Err(TextError::At { line: 1, fault }),
    };
    let mut number = 1u32;
    for line in lines {
        number += 1;
        if let Err(why) = take_line(&mut gathering, version, line.bytes) {
            return Err(at_line(number, why));
        }
    }
    if gathering.has_ended() {
        Ok(gathering)
    } else {
        Err(TextError::At {
            line: number + 1,
            fault: gathering.bad_line(),
        })
    }
}
