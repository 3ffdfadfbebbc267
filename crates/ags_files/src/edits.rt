//! Texts of edits.

ghost use Rattle.std.specs.Prelude.{◌≡◌, ◌≤◌, length};
ghost use Rattle.ags_edits.specs.Limit.{edits_limit};
ghost use Rattle.ags_files.specs.Reading.{ReadsBytes, ReadsFile, edits_reading};
ghost use Rattle.ags_outside.specs.Count.{HasCause};
ghost use Rattle.ags_plan.specs.Loading.{is_absence, is_read_fault};

use ags_edits::{EDITS_LIMIT, Edit, EditsError};
use ags_outside::Shelf;
use ags_plan::{Unloaded, fetch_file};
use std::alloc::Global;

/// Reads a text of edits' bytes.
fn read_edits<'a>(alloc: Global, bytes: &[u8]) -> Result<Vec<Edit>, Unloaded<'a, EditsError>>
    requires { length bytes.now ≤ edits_limit }
    ensures { ReadsBytes (edits_reading) bytes.now result }
{
    match ags_edits::read(alloc, bytes) {
        Ok(edits) => Ok(edits),
        Err(EditsError::NoMemory) => Err(Unloaded::NoMemory),
        Err(error) => Err(Unloaded::Refused(error)),
    }
}

/// Loads the text of edits of a name.
pub fn load_edits<'a, S: Shelf>(
    alloc: Global,
    name: &'a str,
    shelf: &mut S,
) -> Result<Vec<Edit>, Unloaded<'a, EditsError>>
    ensures same { S.told shelf.new ≡ S.told shelf.old }
    ensures loads { ReadsFile (edits_reading) (S.told shelf.old name.entry.now) name.entry.now result }
    ensures faults { HasCause (S.faults shelf.old) (S.faults shelf.new) (is_read_fault result) }
    ensures absences { HasCause (S.absences shelf.old) (S.absences shelf.new) (is_absence result) }
{
    let bytes = fetch_file(alloc, shelf, name, EDITS_LIMIT as u64)?;
    read_edits(alloc, &bytes)
}
