//! Sources, each kept as its bytes with what was made of them.

ghost use Rattle.std.specs.Prelude.{◌≡◌, ◌≤◌, length};
ghost use Rattle.ags_files.specs.Reading.{ReadsBytes, ReadsFile, source_reading};
ghost use Rattle.ags_outside.specs.Count.{HasCause};
ghost use Rattle.ags_places.specs.Limit.{source_limit};
ghost use Rattle.ags_plan.specs.Loading.{is_absence, is_read_fault};

use ags_asm::{AssembleError, Assembled, Building, SOURCE_LIMIT, SourceError, assemble};
use ags_outside::Shelf;
use ags_plan::{Unloaded, fetch_file_into};
use ags_ports::Machine;
use std::alloc::Global;

/// A source that was read: its bytes, and what was made of them.
pub struct SourceFile {
    /// The bytes of the file.
    pub bytes: Vec<u8>,
    /// Its cards with their places and words, its symbols, and the image of its words.
    pub made: Assembled,
}

impl SourceFile {
    /// What was made of the bytes, which are let go.
    pub fn into_made(self) -> Assembled
        ensures { result ≡ self.made }
    {
        let SourceFile { bytes: _, made } = self;
        made
    }
}

// Written and not derived, so that whoever lets a source go calls this, and has none of its parts to follow.
impl Drop for SourceFile {
    fn drop(self) {
        let SourceFile { bytes: _, made: _ } = self;
    }
}

/// Reads a source of bytes at hand, for a machine.
pub fn read_source<'a>(
    alloc: Global,
    machine: &Machine,
    bytes: Vec<u8>,
) -> Result<SourceFile, Unloaded<'a, SourceError>>
    requires { length bytes.items ≤ source_limit }
    ensures { ReadsBytes (source_reading machine.now) bytes.items result }
{
    match assemble(alloc, &bytes, &machine.codes) {
        Ok(made) => Ok(SourceFile { bytes, made }),
        Err(AssembleError::Source(error)) => Err(Unloaded::Refused(error)),
        Err(AssembleError::NoMemory) => Err(Unloaded::NoMemory),
    }
}

/// What a source whose pieces came is read as, for the machine whose codes it is built with.
fn finish_source<'a>(
    machine: &Machine,
    building: Building,
) -> Result<SourceFile, Unloaded<'a, SourceError>>
    requires within { length building.bytes ≤ source_limit }
    requires codes { building.codes ≡ machine.now.codes }
    ensures { ReadsBytes (source_reading machine.now) building.bytes result }
{
    let _codes = &machine.codes;
    match building.finish() {
        Ok((bytes, made)) => Ok(SourceFile { bytes, made }),
        Err(AssembleError::Source(error)) => Err(Unloaded::Refused(error)),
        Err(AssembleError::NoMemory) => Err(Unloaded::NoMemory),
    }
}

/// Loads the source of a name, for a machine. Its bytes are kept once, by what it is built from.
pub fn load_source<'a, S: Shelf>(
    alloc: Global,
    machine: &Machine,
    name: &'a str,
    shelf: &mut S,
) -> Result<SourceFile, Unloaded<'a, SourceError>>
    ensures same { S.told shelf.new ≡ S.told shelf.old }
    ensures loads { ReadsFile (source_reading machine.now) (S.told shelf.old name.entry.now) name.entry.now result }
    ensures faults { HasCause (S.faults shelf.old) (S.faults shelf.new) (is_read_fault result) }
    ensures absences { HasCause (S.absences shelf.old) (S.absences shelf.new) (is_absence result) }
{
    let mut building = Building::new(alloc, &machine.codes);
    fetch_file_into(shelf, name, SOURCE_LIMIT as u64, &mut building)?;
    finish_source(machine, building)
}
