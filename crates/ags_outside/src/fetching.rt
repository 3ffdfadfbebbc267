//! A whole file of a shelf, handed to a taker or given as a list.

ghost use Rattle.std.specs.Prelude.{◌≡◌, ◌+◌, ◌≤◌, min, length, Err, IfOk, IfErr, OnOk, IsErrOf};
ghost use Rattle.std.specs.Result.{result_map_both};
ghost use Rattle.ags_outside.specs.Count.{HasCause, Rose};
ghost use Rattle.ags_outside.specs.Fetch.{FetchTells, is_absence, is_read_fault};
ghost use Rattle.ags_outside.specs.Taken.{TookFile, TookAtMost};

use crate::{Pull, Shelf, Taker};
use std::alloc::Global;
use thiserror::Error;

/// How many bytes are asked for at once, at most.
const PIECE: usize = 4096;

/// Why a file isn't given.
#[derive(Clone, Copy, Debug, PartialEq, Eq, Error)]
pub enum FetchError {
    /// The shelf found no such file in this call.
    #[error("there is no such file")]
    Absent,
    /// The shelf failed in this call.
    #[error("the file could not be read")]
    ReadFault,
    /// More bytes came than the limit allows.
    #[error("the file is too long")]
    TooLong,
    /// There was too little memory.
    #[error("out of memory")]
    NoMemory,
}

/// How many bytes to ask for when so many are left up to the limit: a piece, or where fewer are left, one more
/// than these.
fn room(left: u64) -> usize
    ensures { result ≡ min 4096 (left + 1) }
{
    if left < PIECE as u64 {
        left as usize + 1
    } else {
        PIECE
    }
}

/// Reads a file to its end, and hands each piece to a taker. The limit is in bytes, and a longer file is refused as
/// soon as more came: a piece that would pass the limit isn't handed on. After a refusal the taker isn't used again.
pub fn fetch_into<S: Shelf, T: Taker>(
    shelf: &mut S,
    name: &str,
    limit: u64,
    taker: &mut T,
) -> Result<(), FetchError>
    ensures same { S.told shelf.new ≡ S.told shelf.old }
    ensures took { IfOk result (λ _. TookFile T.took (S.told shelf.old name.now) limit taker.old taker.new) }
    ensures stays { OnOk result (T.stays taker.old taker.new) }
    ensures handed { IsErrOf result FetchError.TooLong → TookAtMost T.took limit taker.old taker.new }
    ensures tells { IfErr result (λ error. FetchTells (S.told shelf.old name.now) limit (Err error)) }
    ensures absent { IsErrOf result FetchError.Absent → Rose (S.absences shelf.old) (S.absences shelf.new) }
    ensures read_fault { IsErrOf result FetchError.ReadFault → Rose (S.faults shelf.old) (S.faults shelf.new) }
    ensures faults { HasCause (S.faults shelf.old) (S.faults shelf.new) (is_read_fault result) }
    ensures absences { HasCause (S.absences shelf.old) (S.absences shelf.new) (is_absence result) }
{
    let mut piece = [0u8; PIECE];
    let mut from = 0u64;
    'pulls: loop {
        let left = limit - from;
        let asked = room(left);
        match shelf.pull(name, from, &mut piece[..asked]) {
            Pull::Got(count) => {
                if count as u64 > left {
                    return Err(FetchError::TooLong);
                }
                match taker.take(&piece[..count]) {
                    Ok(()) => from += count as u64,
                    Err(_) => return Err(FetchError::NoMemory),
                }
            }
            Pull::End => return Ok(()),
            Pull::Absent => return Err(FetchError::Absent),
            Pull::Failed => return Err(FetchError::ReadFault),
            Pull::NoMemory => return Err(FetchError::NoMemory),
        }
    }
}

/// Reads a file to its end. The limit is in bytes, and a longer file is refused as soon as more came. After a
/// refusal nothing is kept.
pub fn fetch<S: Shelf>(
    alloc: Global,
    shelf: &mut S,
    name: &str,
    limit: u64,
) -> Result<Vec<u8>, FetchError>
    ensures same { S.told shelf.new ≡ S.told shelf.old }
    ensures within { IfOk result (λ bytes. length bytes.items ≤ limit) }
    ensures tells { FetchTells (S.told shelf.old name.now) limit (result_map_both (λ bytes. bytes.items) (λ error. error) result) }
    ensures absent { IsErrOf result FetchError.Absent → Rose (S.absences shelf.old) (S.absences shelf.new) }
    ensures read_fault { IsErrOf result FetchError.ReadFault → Rose (S.faults shelf.old) (S.faults shelf.new) }
    ensures faults { HasCause (S.faults shelf.old) (S.faults shelf.new) (is_read_fault result) }
    ensures absences { HasCause (S.absences shelf.old) (S.absences shelf.new) (is_absence result) }
{
    let mut bytes = Vec::new(alloc);
    fetch_into(shelf, name, limit, &mut bytes)?;
    Ok(bytes)
}
