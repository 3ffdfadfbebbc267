//! Standard output as a sink.

ghost use Rattle.std.specs.Prelude.{◌≡◌, ◌≢◌, ◌<◌, ◌≤◌, ◌+◌, [], true, false, None, Ok, IfOk, IfErr, IsSomeAnd, is_some, length, ◌^◌};
ghost use Rattle.std.specs.Io.Buffered.{writer_buffer, writer_capacity, writer_contents, writer_inner};
ghost use Rattle.std.specs.Io.KnownBytes.{Keeps};
ghost use Rattle.std.specs.IoError.{error_kind};
ghost use Rattle.std.specs.Str.{IsUtf8};
ghost use Rattle.ags_edge.specs.Answers.{KeepsPiece, PutAppends, put_faults_after};
ghost use Rattle.ags_outside.specs.Count.{HasCause, Rose};
ghost use Rattle.ags_outside.specs.Sink.{TookWithin, is_failed_put};

use crate::held_sink::HeldSink;
use crate::reasons::reason_of;
use ags_outside::{PutDone, Sink};
use std::alloc::Global;
use std::io::{self, BufWriter, ErrorKind, Write};

/// How many bytes are written at once.
const ROOM: usize = 65536;

/// A writer, after room for what is not yet written.
pub struct OutSink<W: Write + Drop> {
    out: BufWriter<W>,
    faults: u64,
    /// The piece that was put last, where it was taken whole and there was memory to keep it.
    last: Vec<u8>,
    /// Why the writer failed last.
    reason: Option<ErrorKind>,
}

// Written, so that whoever lets one go calls this, and the checker follows no part of it there.
impl<W: Write + Drop> Drop for OutSink<W> {
    fn drop(self) {
        let OutSink {
            out: _,
            faults: _,
            last: _,
            reason: _,
        } = self;
    }
}

/// What a sink answers to a write. One that took nothing is a fault, and so is each error that isn't want of memory.
fn answer_to(write: io::Result<usize>) -> PutDone
    ensures nothing { write ≡ Ok 0 → result ≡ PutDone.Failed }
    ensures took { IfOk write (λ count. 0 < count → result ≡ PutDone.Took count) }
    ensures memory { IfErr write (λ error. error_kind error ≡ ErrorKind.OutOfMemory → result ≡ PutDone.NoMemory) }
    ensures failed { IfErr write (λ error. error_kind error ≢ ErrorKind.OutOfMemory → result ≡ PutDone.Failed) }
{
    match write {
        Ok(0) => PutDone::Failed,
        Ok(count) => PutDone::Took(count),
        Err(error) if error.kind() == ErrorKind::OutOfMemory => PutDone::NoMemory,
        Err(_) => PutDone::Failed,
    }
}

impl<W: Write + Drop> OutSink<W> {
    /// A sink that writes to this, with room for 65,536 bytes before it writes. An error comes for want of memory alone.
    pub fn new(alloc: Global, writer: W) -> io::Result<OutSink<W>>
        ensures writer { IfOk result (λ sink. writer_inner sink.out ≡ writer) }
        ensures empty { IfOk result (λ sink. writer_buffer sink.out ≡ []) }
        ensures room { IfOk result (λ sink. writer_capacity sink.out ≡ 65536) }
        ensures faults { IfOk result (λ sink. sink.faults ≡ 0) }
        ensures last { IfOk result (λ sink. sink.last.items ≡ []) }
        ensures reason { IfOk result (λ sink. sink.reason ≡ None) }
        ensures memory { IfErr result (λ error. error_kind error ≡ ErrorKind.OutOfMemory) }
    {
        let out = BufWriter::with_capacity(alloc, ROOM, writer)?;
        Ok(OutSink {
            out,
            faults: 0,
            last: Vec::new(alloc),
            reason: None,
        })
    }

    /// What is kept of the piece that was put last, where it is text: all of it where it was taken whole and there was memory to keep it,
    /// else nothing.
    pub fn last_piece(&self) -> &str
        ensures text { IsUtf8 self.now.last.items → result.now ≡ self.now.last.items }
        ensures no_text { (IsUtf8 self.now.last.items → ⊥) → result.now ≡ [] }
    {
        match str::from_utf8(&self.last) {
            Ok(text) => text,
            Err(_) => "",
        }
    }

    /// Why the writer failed last, where it did.
    pub fn why_unwritten(&self) -> Option<ErrorKind>
        ensures { result ≡ self.now.reason }
    {
        self.reason
    }

    /// Keeps a piece that was taken whole, and else none.
    fn keep_last(&mut self, piece: &[u8], answer: PutDone)
        ensures last { KeepsPiece self.new.last.items piece.now answer }
        ensures out { self.new.out ≡ self.old.out }
        ensures faults { self.new.faults ≡ self.old.faults }
        ensures reason { self.new.reason ≡ self.old.reason }
    {
        self.last.clear();
        if answer == PutDone::Took(piece.len()) {
            let _ = self.last.extend_from_slice(piece);
        }
    }
}

impl<W: Write + Drop> Sink for OutSink<W> {
    ghost told = { λ _. None };

    ghost faults = { λ sink. sink.faults };

    fn put(&mut self, piece: &[u8]) -> PutDone
        requires { 0 < length piece.now }
        ensures took { TookWithin (length piece.now) result }
        ensures bytes { PutAppends (writer_contents W.contents self.old.out) (writer_contents W.contents self.new.out) piece.now result }
        ensures failed { result ≡ PutDone.Failed → Rose self.old.faults self.new.faults }
        ensures faults { HasCause self.old.faults self.new.faults (is_failed_put result) }
        ensures counted { self.new.faults ≡ put_faults_after self.old.faults result }
        ensures last { KeepsPiece self.new.last.items piece.now result }
        // The reason that is kept is that of the last failure, also where the writer took nothing and named no error.
        ensures reason { result ≡ PutDone.Failed → IsSomeAnd self.new.reason (λ reason. reason ≢ ErrorKind.OutOfMemory) }
        ensures reason_stays { result ≢ PutDone.Failed → self.new.reason ≡ self.old.reason }
    {
        let written = self.out.write(piece);
        let reason = reason_of(&written);
        let answer = answer_to(written);
        self.keep_last(piece, answer);
        if answer == PutDone::Failed {
            self.faults = self.faults.saturating_add(1);
            self.reason = Some(reason.unwrap_or(ErrorKind::WriteZero));
        }
        answer
    }
}

impl<W: Write + Drop> HeldSink for OutSink<W> {
    ghost use Rattle.std.specs.Io.Buffered.{writer_buffer};

    ghost is_written = { λ sink. writer_buffer sink.out ≡ [] };

    fn finish(&mut self) -> bool
        ensures bytes { Keeps (writer_contents W.contents self.old.out) (writer_contents W.contents self.new.out) }
        ensures written { result ≡ true → writer_buffer self.new.out ≡ [] }
        ensures faults_stay { self.old.faults ≤ self.new.faults }
        ensures counted { self.new.faults < 2 ^ 64 }
        ensures failed { result ≡ false → Rose self.old.faults self.new.faults }
        ensures once { result ≡ false → self.new.faults ≤ self.old.faults + 1 }
        ensures clean { result ≡ true → self.new.faults ≡ self.old.faults }
        ensures reason { result ≡ false → is_some self.new.reason ≡ true }
        ensures reason_stays { result ≡ true → self.new.reason ≡ self.old.reason }
        ensures last { self.new.last.items ≡ self.old.last.items }
    {
        let faults = self.faults;
        let flushed = self.out.flush();
        let written = flushed.is_ok();
        if !written {
            self.faults = faults.saturating_add(1);
            self.reason = reason_of(&flushed);
        }
        written
    }
}
