//! The commands `assemble`, `tape` and `xref`: a text of a source.

ghost use Rattle.ags_outside.specs.Count.{HasCause};
ghost use Rattle.ags_outside.specs.Send.{is_write_fault};
ghost use Rattle.ags_plan.specs.Plan.{WorkAt};
ghost use Rattle.ags_plan.specs.Saying.{Says};
ghost use Rattle.ags_program.specs.Program.{program};
ghost use Rattle.ags_program.specs.Views.{IsReadSource, assembly_of};
ghost use Rattle.ags_program.specs.Work as work;

use ags_command::SourceText;
use ags_image::send_tape;
use ags_listing::send_listing;
use ags_outside::{SendError, Sink};
use ags_program::{SourceFile, Status};
use ags_xref::{XrefError, send_xref};
use std::alloc::Global;

/// Writes the listing of a source.
fn write_listing<K: Sink>(
    alloc: Global,
    source: &SourceFile,
    out: &mut K,
) -> Result<Status, SendError>
    requires { IsReadSource source.now }
    ensures says { Says program (WorkAt (work.WriteText SourceText.Listing (assembly_of source.now))) (K.told out.old) (K.told out.new) result }
    ensures faults { HasCause (K.faults out.old) (K.faults out.new) (is_write_fault result) }
{
    send_listing(alloc, &source.bytes, &source.made, out).and(Ok(Status::Done))
}

/// Writes the tape of a source's words.
fn write_tape<K: Sink>(source: &SourceFile, out: &mut K) -> Result<Status, SendError>
    requires { IsReadSource source.now }
    ensures says { Says program (WorkAt (work.WriteText SourceText.Tape (assembly_of source.now))) (K.told out.old) (K.told out.new) result }
    ensures faults { HasCause (K.faults out.old) (K.faults out.new) (is_write_fault result) }
{
    send_tape(&source.made.image, out).and(Ok(Status::Done))
}

/// Writes the cross reference of a source's symbols.
fn write_cross_reference<K: Sink>(
    alloc: Global,
    source: &SourceFile,
    out: &mut K,
) -> Result<Status, SendError>
    requires { IsReadSource source.now }
    ensures says { Says program (WorkAt (work.WriteText SourceText.CrossReference (assembly_of source.now))) (K.told out.old) (K.told out.new) result }
    ensures faults { HasCause (K.faults out.old) (K.faults out.new) (is_write_fault result) }
{
    match send_xref(alloc, &source.bytes, &source.made, out) {
        Ok(()) => Ok(Status::Done),
        Err(XrefError::WriteFault) => Err(SendError::WriteFault),
        Err(XrefError::NoMemory) => Err(SendError::NoMemory),
    }
}

/// Writes a text of a source that was read.
pub(crate) fn write_text<K: Sink>(
    alloc: Global,
    text: SourceText,
    source: &SourceFile,
    out: &mut K,
) -> Result<Status, SendError>
    requires { IsReadSource source.now }
    ensures says { Says program (WorkAt (work.WriteText text (assembly_of source.now))) (K.told out.old) (K.told out.new) result }
    ensures faults { HasCause (K.faults out.old) (K.faults out.new) (is_write_fault result) }
{
    match text {
        SourceText::Listing => write_listing(alloc, source, out),
        SourceText::Tape => write_tape(source, out),
        SourceText::CrossReference => write_cross_reference(alloc, source, out),
    }
}
