//! Machine files.

ghost use Rattle.std.specs.Prelude.{◌≡◌, ◌≤◌, length};
ghost use Rattle.ags_files.specs.Reading.{ReadsBytes, ReadsFile, machine_reading};
ghost use Rattle.ags_machfile.specs.Limit.{machine_limit};
ghost use Rattle.ags_outside.specs.Count.{HasCause};
ghost use Rattle.ags_plan.specs.Loading.{is_absence, is_read_fault};

use ags_machfile::{MACHINE_LIMIT, MachError};
use ags_outside::Shelf;
use ags_plan::{Unloaded, fetch_file};
use ags_ports::Machine;
use std::alloc::Global;

/// Reads a machine file's bytes.
fn read_machine<'a>(alloc: Global, bytes: &[u8]) -> Result<Machine, Unloaded<'a, MachError>>
    requires { length bytes.now ≤ machine_limit }
    ensures { ReadsBytes machine_reading bytes.now result }
{
    match ags_machfile::read(alloc, bytes) {
        Ok(machine) => Ok(machine),
        Err(MachError::NoMemory) => Err(Unloaded::NoMemory),
        Err(error) => Err(Unloaded::Refused(error)),
    }
}

/// Loads the machine of a file of that name.
pub fn load_machine<'a, S: Shelf>(
    alloc: Global,
    name: &'a str,
    shelf: &mut S,
) -> Result<Machine, Unloaded<'a, MachError>>
    ensures same { S.told shelf.new ≡ S.told shelf.old }
    ensures loads { ReadsFile machine_reading (S.told shelf.old name.entry.now) name.entry.now result }
    ensures faults { HasCause (S.faults shelf.old) (S.faults shelf.new) (is_read_fault result) }
    ensures absences { HasCause (S.absences shelf.old) (S.absences shelf.new) (is_absence result) }
{
    let bytes = fetch_file(alloc, shelf, name, MACHINE_LIMIT as u64)?;
    read_machine(alloc, &bytes)
}
