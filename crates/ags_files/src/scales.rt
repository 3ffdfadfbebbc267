//! Texts of scales.

ghost use Rattle.std.specs.Prelude.{◌≡◌, ◌≤◌, length};
ghost use Rattle.ags_files.specs.Reading.{ReadsBytes, ReadsFile, scales_reading};
ghost use Rattle.ags_outside.specs.Count.{HasCause};
ghost use Rattle.ags_plan.specs.Loading.{is_absence, is_read_fault};
ghost use Rattle.ags_tags.specs.Limit.{scales_limit};

use ags_outside::Shelf;
use ags_plan::{Unloaded, fetch_file};
use ags_ports::Machine;
use ags_tags::{SCALES_LIMIT, ScaleError, Scales};
use std::alloc::Global;

/// Reads a text of scales' bytes, for a machine and a certificate of so many rows.
fn read_scales<'a>(
    alloc: Global,
    machine: &Machine,
    rows: u32,
    bytes: &[u8],
) -> Result<Scales, Unloaded<'a, ScaleError>>
    requires { length bytes.now ≤ scales_limit }
    ensures { ReadsBytes (scales_reading machine.now rows) bytes.now result }
{
    match ags_tags::read(alloc, bytes, machine, rows) {
        Ok(scales) => Ok(scales),
        Err(ScaleError::NoMemory) => Err(Unloaded::NoMemory),
        Err(error) => Err(Unloaded::Refused(error)),
    }
}

/// Loads the text of scales of a name, for a machine and a certificate of so many rows.
pub fn load_scales<'a, S: Shelf>(
    alloc: Global,
    machine: &Machine,
    rows: u32,
    name: &'a str,
    shelf: &mut S,
) -> Result<Scales, Unloaded<'a, ScaleError>>
    ensures same { S.told shelf.new ≡ S.told shelf.old }
    ensures loads { ReadsFile (scales_reading machine.now rows) (S.told shelf.old name.entry.now) name.entry.now result }
    ensures faults { HasCause (S.faults shelf.old) (S.faults shelf.new) (is_read_fault result) }
    ensures absences { HasCause (S.absences shelf.old) (S.absences shelf.new) (is_absence result) }
{
    let bytes = fetch_file(alloc, shelf, name, SCALES_LIMIT as u64)?;
    read_scales(alloc, machine, rows, &bytes)
}
