//! Bench scripts.

ghost use Rattle.std.specs.Prelude.{◌≡◌, ◌≤◌, length};
ghost use Rattle.ags_files.specs.Reading.{ReadsBytes, ReadsFile};
ghost use Rattle.ags_outside.specs.Count.{HasCause};
ghost use Rattle.ags_plan.specs.Loading.{is_absence, is_read_fault};
ghost use Rattle.ags_script.specs.Limit.{script_limit};
ghost use Rattle.ags_bench.specs.Scripts.{script_reading};

use ags_benchscript::BenchScript;
use ags_outside::Shelf;
use ags_plan::{Unloaded, fetch_file};
use ags_ports::Machine;
use ags_script::{SCRIPT_LIMIT, ScriptError};
use std::alloc::Global;

/// Reads a bench script's bytes, for a machine.
fn read_script<'a>(
    alloc: Global,
    machine: &Machine,
    bytes: &[u8],
) -> Result<BenchScript, Unloaded<'a, ScriptError>>
    requires { length bytes.now ≤ script_limit }
    ensures { ReadsBytes (script_reading machine.now) bytes.now result }
{
    match ags_benchscript::read(alloc, bytes, machine) {
        Ok(script) => Ok(script),
        Err(ScriptError::NoMemory) => Err(Unloaded::NoMemory),
        Err(error) => Err(Unloaded::Refused(error)),
    }
}

/// Fetches the bench script of a name and reads it, for a machine.
pub(crate) fn fetch_script<'a, S: Shelf>(
    alloc: Global,
    machine: &Machine,
    name: &'a str,
    shelf: &mut S,
) -> Result<BenchScript, Unloaded<'a, ScriptError>>
    ensures same { S.told shelf.new ≡ S.told shelf.old }
    ensures loads { ReadsFile (script_reading machine.now) (S.told shelf.old name.entry.now) name.entry.now result }
    ensures faults { HasCause (S.faults shelf.old) (S.faults shelf.new) (is_read_fault result) }
    ensures absences { HasCause (S.absences shelf.old) (S.absences shelf.new) (is_absence result) }
{
    let bytes = fetch_file(alloc, shelf, name, SCRIPT_LIMIT as u64)?;
    read_script(alloc, machine, &bytes)
}
