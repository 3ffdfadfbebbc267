//! All bytes into a sink.

ghost use Rattle.std.specs.Prelude.{◌≡◌, [], Ok, OnOk, OnErr, IsErrOf};
ghost use Rattle.ags_outside.specs.Count.{HasCause, Rose};
ghost use Rattle.ags_outside.specs.Send.{is_write_fault};
ghost use Rattle.ags_outside.specs.Sink.{appended, WroteFront};

use crate::{PutDone, Sink};
use thiserror::Error;

/// Why not all bytes were put.
#[derive(Clone, Copy, Debug, PartialEq, Eq, Error)]
pub enum SendError {
    /// The sink failed in this call.
    #[error("the output could not be written")]
    WriteFault,
    /// There was too little memory.
    #[error("out of memory")]
    NoMemory,
}

/// Puts all the bytes, going on after a part was taken. No bytes make no put. After a refusal a front of the
/// bytes was appended.
pub fn send<K: Sink>(out: &mut K, bytes: &[u8]) -> Result<(), SendError>
    ensures sent { OnOk result (K.told out.new ≡ appended (K.told out.old) bytes.now) }
    ensures front { OnErr result (WroteFront (K.told out.old) (K.told out.new) bytes.now) }
    ensures write_fault { IsErrOf result SendError.WriteFault → Rose (K.faults out.old) (K.faults out.new) }
    ensures faults { HasCause (K.faults out.old) (K.faults out.new) (is_write_fault result) }
    ensures nothing { bytes.now ≡ [] → (result ≡ Ok tt) × (out.new ≡ out.old) }
{
    let mut rest = bytes;
    while !rest.is_empty() {
        match out.put(rest) {
            PutDone::Took(count) => rest = &rest[count..],
            PutDone::Failed => return Err(SendError::WriteFault),
            PutDone::NoMemory => return Err(SendError::NoMemory),
        }
    }
    Ok(())
}
