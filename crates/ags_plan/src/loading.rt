//! The files of a command line, one at a time.

ghost use Rattle.std.specs.Prelude.{◌≡◌, ◌≤◌, length, true, Err, IfOk, IfErr, OnOk};
ghost use Rattle.std.specs.Result.{result_map_both};
ghost use Rattle.ags_outside.specs.Count.{HasCause};
ghost use Rattle.ags_outside.specs.Taken.{TookAtMost};
ghost use Rattle.ags_plan.specs.Loading.{FetchesFile, TakesFile, is_absence, is_read_fault, is_too_long};

use crate::unloaded::Unloaded;
use ags_outside::{FetchError, Shelf, Taker, fetch_into};
use std::alloc::Global;

/// Hands the file of a name to a taker, piece by piece, where it has no more bytes than the limit. After a refusal the taker isn't
/// used again.
pub fn fetch_file_into<'a, S: Shelf, T: Taker, R: Drop>(
    shelf: &mut S,
    name: &'a str,
    limit: u64,
    taker: &mut T,
) -> Result<(), Unloaded<'a, R>>
    ensures same { S.told shelf.new ≡ S.told shelf.old }
    ensures took { IfOk result (λ _. TakesFile T.took (S.told shelf.old name.entry.now) limit taker.old taker.new) }
    ensures stays { OnOk result (T.stays taker.old taker.new) }
    // Of a file that is too long no piece is handed on with which it passes the limit.
    ensures handed { is_too_long result ≡ true → TookAtMost T.took limit taker.old taker.new }
    ensures fetches { IfErr result (λ why. FetchesFile (S.told shelf.old name.entry.now) name.entry.now limit (Err why)) }
    ensures faults { HasCause (S.faults shelf.old) (S.faults shelf.new) (is_read_fault result) }
    ensures absences { HasCause (S.absences shelf.old) (S.absences shelf.new) (is_absence result) }
{
    match fetch_into(shelf, name, limit, taker) {
        Ok(()) => Ok(()),
        Err(FetchError::Absent) => Err(Unloaded::Absent(name)),
        Err(FetchError::TooLong) => Err(Unloaded::TooLong { name, limit }),
        Err(FetchError::ReadFault) => Err(Unloaded::ReadFault),
        Err(FetchError::NoMemory) => Err(Unloaded::NoMemory),
    }
}

/// Fetches the file of a name whole, where it has no more bytes than the limit.
pub fn fetch_file<'a, S: Shelf, R: Drop>(
    alloc: Global,
    shelf: &mut S,
    name: &'a str,
    limit: u64,
) -> Result<Vec<u8>, Unloaded<'a, R>>
    ensures same { S.told shelf.new ≡ S.told shelf.old }
    ensures within { IfOk result (λ bytes. length bytes.items ≤ limit) }
    ensures fetches { FetchesFile (S.told shelf.old name.entry.now) name.entry.now limit (result_map_both (λ bytes. bytes.items) (λ why. why) result) }
    ensures faults { HasCause (S.faults shelf.old) (S.faults shelf.new) (is_read_fault result) }
    ensures absences { HasCause (S.absences shelf.old) (S.absences shelf.new) (is_absence result) }
{
    let mut bytes = Vec::new(alloc);
    fetch_file_into(shelf, name, limit, &mut bytes)?;
    Ok(bytes)
}
