//! The one line that a run ends with where its files weren't loaded.

ghost use Rattle.std.specs.Prelude.{◌≡◌, ℕ, List, IfOk, OnOk, OnErr};
ghost use Rattle.std.specs.String.{string_bytes};
ghost use Rattle.ags_outside.specs.Count.{HasCause};
ghost use Rattle.ags_outside.specs.Send.{is_write_fault};
ghost use Rattle.ags_outside.specs.Sink.{appended, WroteFront};
ghost use Rattle.ags_plan.specs.Plan.{absent_line, long_line};
ghost use Rattle.ags_plan.specs.Saying.{SaysWhy, settled};

use crate::causes::Stop;
use crate::program::Loader;
use crate::unloaded::Unloaded;
use ags_outside::{SendError, Sink, send};
use std::alloc::{AllocError, Global};

/// The line of an absent file.
fn absent_text(alloc: Global, name: &str) -> Result<String, AllocError>
    ensures { IfOk result (λ text. string_bytes text ≡ absent_line name.now) }
{
    format!(in alloc; "ABSENT {name}\n")
}

/// The line of a file that is longer than the limit, in bytes.
fn long_text(alloc: Global, name: &str, limit: u64) -> Result<String, AllocError>
    ensures { IfOk result (λ text. string_bytes text ≡ long_line name.now limit) }
{
    format!(in alloc; "LONG {name} {limit}\n")
}

/// Sends a line that was to be made. Where there was no memory for it nothing is sent.
pub fn send_line<K: Sink>(line: Result<String, AllocError>, out: &mut K) -> Result<(), SendError>
    ensures sent { (text : List ℕ) → IfOk line (λ made. string_bytes made ≡ text)
        → OnOk result (K.told out.new ≡ appended (K.told out.old) text) }
    ensures front { (text : List ℕ) → IfOk line (λ made. string_bytes made ≡ text)
        → OnErr result (WroteFront (K.told out.old) (K.told out.new) text) }
    ensures faults { HasCause (K.faults out.old) (K.faults out.new) (is_write_fault result) }
{
    let Ok(line) = line else {
        return Err(SendError::NoMemory);
    };
    send(out, line.as_bytes())
}

/// Sends a line that ends the run with a status. Where there was no memory for the line nothing is sent.
fn say<T: Copy, K: Sink>(
    out: &mut K,
    line: Result<String, AllocError>,
    status: T,
) -> Result<T, SendError>
    ensures ended { IfOk result (λ ended. ended ≡ status) }
    ensures sent { (text : List ℕ) → IfOk line (λ made. string_bytes made ≡ text)
        → OnOk result (K.told out.new ≡ appended (K.told out.old) text) }
    ensures prefix { (text : List ℕ) → IfOk line (λ made. string_bytes made ≡ text)
        → OnErr result (WroteFront (K.told out.old) (K.told out.new) text) }
    ensures faults { HasCause (K.faults out.old) (K.faults out.new) (is_write_fault result) }
{
    send_line(line, out)?;
    Ok(status)
}

/// Says why the files of a command line weren't loaded.
pub(crate) fn say_unloaded<P: Loader, K: Sink>(
    alloc: Global,
    why: Unloaded<'_, P::Refusal>,
    out: &mut K,
) -> Result<P::Status, SendError>
    ensures says { SaysWhy P.definition P.line_of P.status_of why.entry (K.told out.old) (K.told out.new) result }
    ensures faults { HasCause (K.faults out.old) (K.faults out.new) (is_write_fault result) }
{
    match why {
        Unloaded::Absent(name) => say(out, absent_text(alloc, name), P::stop_status(Stop::Absent)),
        Unloaded::TooLong { name, limit } => say(
            out,
            long_text(alloc, name, limit),
            P::stop_status(Stop::TooLong),
        ),
        Unloaded::Refused(refusal) => say(
            out,
            P::refusal_line(alloc, &refusal),
            P::refusal_status(&refusal),
        ),
        Unloaded::ReadFault => Ok(P::stop_status(Stop::ReadFault)),
        Unloaded::NoMemory => Err(SendError::NoMemory),
    }
}

/// The status of a run by what its last part came to.
pub(crate) fn settle<P: Loader>(ended: Result<P::Status, SendError>) -> P::Status
    ensures { result ≡ settled P.definition ended }
{
    match ended {
        Ok(status) => status,
        Err(SendError::WriteFault) => P::stop_status(Stop::WriteFault),
        Err(SendError::NoMemory) => P::stop_status(Stop::NoMemory),
    }
}
