//! A sink in memory of which some calls fail.

ghost use Rattle.std.specs.Prelude.{◌≡◌, ◌<◌, ◌≤◌, [], ◌∷◌, ◌++◌, Some, OnOk, OnErr, length, min};
ghost use Rattle.ags_outside.specs.FailingCalls.{fails_next, next_call};
ghost use Rattle.ags_outside.specs.MemoryState.{IsMemoryPut, faults_after};
ghost use Rattle.ags_outside.specs.Sink.{TookWithin, is_failed_put, taken_after};

use crate::failing_calls::FailingCalls;
use crate::steady_sink::SteadySink;
use crate::{PutDone, Sink};
use std::alloc::{AllocError, Global};
use std::marker::Model;

/// Bytes in memory. It tells what it took, and fails at the calls that are listed and at no other.
pub struct MemorySink {
    held: SteadySink,
    faults: u64,
    calls: FailingCalls,
}

// Written, so that whoever lets one go calls this, and the checker follows no part of it there.
impl Drop for MemorySink {
    fn drop(self) {
        let MemorySink {
            held: _,
            faults: _,
            calls: _,
        } = self;
    }
}

impl Model for MemorySink {
    ghost use Rattle.ags_outside.specs.MemoryState.{MemorySinkState};

    ghost Value = { MemorySinkState };

    ghost view = { λ sink. record { bytes = sink.held.bytes; most = sink.held.most; faults = sink.faults; calls = sink.calls } };
}

impl MemorySink {
    /// A sink that took nothing, takes at most so many bytes at once, and of which no call fails.
    pub fn new(alloc: Global, most: usize) -> MemorySink
        requires { 1 ≤ most }
        ensures empty { result.bytes ≡ [] }
        ensures most { result.most ≡ most }
        ensures faults { result.faults ≡ 0 }
        ensures made { result.calls.made ≡ 0 }
        ensures failing { result.calls.failing ≡ [] }
    {
        MemorySink {
            held: SteadySink::new(alloc, most),
            faults: 0,
            calls: FailingCalls::new(alloc),
        }
    }

    /// Lets the put of a number fail, the first put into the sink being number 1. A number after which the sink already is, or one that
    /// was listed before, changes nothing of what it answers. Where memory is wanting nothing changes.
    pub fn fail_at(&mut self, call: u64) -> Result<(), AllocError>
        ensures listed { OnOk result (self.new ≡ record self.old { calls = record self.old.calls { failing = self.old.calls.failing ++ call ∷ [] } }) }
        ensures kept { OnErr result (self.new ≡ self.old) }
    {
        self.calls.add(call)
    }

    /// The bytes that it took.
    pub fn bytes(&self) -> &[u8]
        ensures { result.now ≡ self.now.bytes }
    {
        self.held.bytes()
    }
}

impl Sink for MemorySink {
    ghost told = { λ sink. Some sink.bytes };

    ghost faults = { λ sink. sink.faults };

    fn put(&mut self, piece: &[u8]) -> PutDone
        requires { 0 < length piece.now }
        ensures took { TookWithin (min (length piece.now) self.old.most) result }
        ensures taken { Some self.new.bytes ≡ taken_after (Some self.old.bytes) piece.now result }
        ensures most { self.new.most ≡ self.old.most }
        ensures calls { self.new.calls ≡ record self.old.calls { made = next_call self.old.calls.made } }
        ensures faults { self.new.faults ≡ faults_after self.old.faults (is_failed_put result) }
        ensures faults_stay { self.old.faults ≤ self.new.faults }
        ensures exactly { IsMemoryPut (fails_next self.old.calls) (min (length piece.now) self.old.most) result }
    {
        if self.calls.fail_next() {
            self.faults = self.faults.saturating_add(1);
            return PutDone::Failed;
        }
        self.held.put(piece)
    }
}
