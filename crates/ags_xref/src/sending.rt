//! The writer of cross references.

ghost use Rattle.std.specs.Prelude.{◌≡◌, ◌≤◌, length, OnOk, OnErr};
ghost use Rattle.ags_outside.specs.Count.{HasCause};
ghost use Rattle.ags_outside.specs.Send as send;
ghost use Rattle.ags_outside.specs.Sink.{appended, WroteFront};
ghost use Rattle.ags_xref.specs.Gathering.{entry_of, rows_text};
ghost use Rattle.ags_xref.specs.Xref.{IsAssemblyOf, xref_line, xref_text};
ghost use Rattle.ags_xref.specs.XrefFault.{is_write_fault, xref_error};

use crate::gathering::gather_naming;
use crate::rows::{Row, rows_by_name};
use crate::writing::push_line;
use ags_asm::Assembled;
use ags_outside::{SendError, Sink, send};
use std::alloc::Global;
use thiserror::Error;

/// Why a cross reference was not sent to its end.
#[derive(Clone, Copy, Debug, Error)]
pub enum XrefError {
    /// Number 1: the sink failed in this call.
    #[error("the output could not be written")]
    WriteFault,
    /// Number 2: there was too little memory.
    #[error("out of memory")]
    NoMemory,
}

/// The error of a cross reference for that of a send.
fn xref_error(error: SendError) -> XrefError
    ensures { result ≡ xref_error error }
{
    match error {
        SendError::WriteFault => XrefError::WriteFault,
        SendError::NoMemory => XrefError::NoMemory,
    }
}

/// Sends a symbol's line. `line` is room for it, whatever is in it.
fn send_line<K: Sink>(
    alloc: Global,
    out: &mut K,
    line: &mut Vec<u8>,
    row: &Row,
    naming: &[u32],
) -> Result<(), SendError>
    ensures sent { OnOk result (K.told out.new ≡ appended (K.told out.old) (xref_line (entry_of row.now) naming.now)) }
    ensures front { OnErr result (WroteFront (K.told out.old) (K.told out.new) (xref_line (entry_of row.now) naming.now)) }
    ensures faults { HasCause (K.faults out.old) (K.faults out.new) (send.is_write_fault result) }
{
    line.clear();
    if push_line(alloc, line, row, naming).is_err() {
        return Err(SendError::NoMemory);
    }
    send(out, line)
}

/// Sends the lines of the symbols, one after the other.
fn send_lines<K: Sink>(
    alloc: Global,
    out: &mut K,
    rows: &[Row],
    naming: &[Vec<u32>],
) -> Result<(), SendError>
    requires { length naming.now ≡ length rows.now }
    ensures sent { OnOk result (K.told out.new ≡ appended (K.told out.old) (rows_text rows.now naming.now)) }
    ensures front { OnErr result (WroteFront (K.told out.old) (K.told out.new) (rows_text rows.now naming.now)) }
    ensures faults { HasCause (K.faults out.old) (K.faults out.new) (send.is_write_fault result) }
{
    let mut line = Vec::new(alloc);
    for (index, row) in rows.iter().enumerate() {
        send_line(alloc, out, &mut line, row, &naming[index])?;
    }
    Ok(())
}

/// Sends the cross reference of a source that was assembled.
fn send_reference<K: Sink>(
    alloc: Global,
    bytes: &[u8],
    made: &Assembled,
    out: &mut K,
) -> Result<(), SendError>
    requires { IsAssemblyOf bytes.now made.now }
    ensures sent { OnOk result (K.told out.new ≡ appended (K.told out.old) (xref_text bytes.now made.now.symbols)) }
    ensures front { OnErr result (WroteFront (K.told out.old) (K.told out.new) (xref_text bytes.now made.now.symbols)) }
    ensures faults { HasCause (K.faults out.old) (K.faults out.new) (send.is_write_fault result) }
{
    let Ok(rows) = rows_by_name(alloc, &made.symbols) else {
        return Err(SendError::NoMemory);
    };
    let Ok(naming) = gather_naming(alloc, bytes, &made.cards, &rows) else {
        return Err(SendError::NoMemory);
    };
    send_lines(alloc, out, &rows, &naming)
}

/// Sends the cross reference of a source that was assembled, a line at a time (docs/SOURCE.md, Cross reference).
pub fn send_xref<K: Sink>(
    alloc: Global,
    bytes: &[u8],
    made: &Assembled,
    out: &mut K,
) -> Result<(), XrefError>
    requires { IsAssemblyOf bytes.now made.now }
    ensures sent { OnOk result (K.told out.new ≡ appended (K.told out.old) (xref_text bytes.now made.now.symbols)) }
    ensures front { OnErr result (WroteFront (K.told out.old) (K.told out.new) (xref_text bytes.now made.now.symbols)) }
    ensures faults { HasCause (K.faults out.old) (K.faults out.new) (is_write_fault result) }
{
    send_reference(alloc, bytes, made, out).map_err(xref_error)
}
