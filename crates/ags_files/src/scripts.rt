//! Scripts.

ghost use Rattle.std.specs.Prelude.{◌≡◌, ◌≤◌, length};
ghost use Rattle.ags_files.specs.Reading.{ReadsBytes, ReadsFile, script_reading};
ghost use Rattle.ags_outside.specs.Count.{HasCause};
ghost use Rattle.ags_plan.specs.Loading.{is_absence, is_read_fault};
ghost use Rattle.ags_script.specs.Limit.{script_limit};

use ags_outside::Shelf;
use ags_plan::{Unloaded, fetch_file};
use ags_ports::Machine;
use ags_script::{SCRIPT_LIMIT, Script, ScriptError};
use std::alloc::Global;

/// Reads a script's bytes, for a machine.
fn read_script<'a>(
    alloc: Global,
    machine: &Machine,
    bytes: &[u8],
) -> Result<Script, Unloaded<'a, ScriptError>>
    requires { length bytes.now ≤ script_limit }
    ensures { ReadsBytes (script_reading machine.now) bytes.now result }
{
    match ags_script::read(alloc, bytes, machine) {
        Ok(script) => Ok(script),
        Err(ScriptError::NoMemory) => Err(Unloaded::NoMemory),
        Err(error) => Err(Unloaded::Refused(error)),
    }
}

/// Loads the script of a name, for a machine.
pub fn load_script<'a, S: Shelf>(
    alloc: Global,
    machine: &Machine,
    name: &'a str,
    shelf: &mut S,
) -> Result<Script, Unloaded<'a, ScriptError>>
    ensures same { S.told shelf.new ≡ S.told shelf.old }
    ensures loads { ReadsFile (script_reading machine.now) (S.told shelf.old name.entry.now) name.entry.now result }
    ensures faults { HasCause (S.faults shelf.old) (S.faults shelf.new) (is_read_fault result) }
    ensures absences { HasCause (S.absences shelf.old) (S.absences shelf.new) (is_absence result) }
{
    let bytes = fetch_file(alloc, shelf, name, SCRIPT_LIMIT as u64)?;
    read_script(alloc, machine, &bytes)
}
