//! Texts of times.

ghost use Rattle.std.specs.Prelude.{◌≡◌, ◌≤◌, length};
ghost use Rattle.ags_files.specs.Reading.{ReadsBytes, ReadsFile, times_reading};
ghost use Rattle.ags_outside.specs.Count.{HasCause};
ghost use Rattle.ags_plan.specs.Loading.{is_absence, is_read_fault};
ghost use Rattle.ags_times.specs.Limit.{times_limit};

use ags_outside::Shelf;
use ags_plan::{Unloaded, fetch_file};
use ags_times::{Budget, BudgetError, TIMES_LIMIT};
use std::alloc::Global;

/// Reads a text of times' bytes, for a certificate of so many rows.
fn read_times<'a>(
    alloc: Global,
    rows: u32,
    bytes: &[u8],
) -> Result<Budget, Unloaded<'a, BudgetError>>
    requires { length bytes.now ≤ times_limit }
    ensures { ReadsBytes (times_reading rows) bytes.now result }
{
    match ags_times::read(alloc, bytes, rows) {
        Ok(budget) => Ok(budget),
        Err(BudgetError::NoMemory) => Err(Unloaded::NoMemory),
        Err(error) => Err(Unloaded::Refused(error)),
    }
}

/// Loads the text of times of a name, for a certificate of so many rows.
pub fn load_times<'a, S: Shelf>(
    alloc: Global,
    rows: u32,
    name: &'a str,
    shelf: &mut S,
) -> Result<Budget, Unloaded<'a, BudgetError>>
    ensures same { S.told shelf.new ≡ S.told shelf.old }
    ensures loads { ReadsFile (times_reading rows) (S.told shelf.old name.entry.now) name.entry.now result }
    ensures faults { HasCause (S.faults shelf.old) (S.faults shelf.new) (is_read_fault result) }
    ensures absences { HasCause (S.absences shelf.old) (S.absences shelf.new) (is_absence result) }
{
    let bytes = fetch_file(alloc, shelf, name, TIMES_LIMIT as u64)?;
    read_times(alloc, rows, &bytes)
}
