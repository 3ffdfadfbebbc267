//! A sink in memory that never fails.

ghost use Rattle.std.specs.Prelude.{◌≡◌, ◌<◌, ◌≤◌, [], Some, length, min};
ghost use Rattle.ags_outside.specs.Sink.{IsSteadyPut, TookWithin, taken_after};

use crate::{PutDone, Sink};
use std::alloc::Global;
use std::marker::Model;

/// Bytes in memory. It tells what it took, and it never fails.
pub struct SteadySink {
    taken: Vec<u8>,
    most: usize,
}

// Written, so that whoever lets one go calls this, and the checker follows no part of it there.
impl Drop for SteadySink {
    fn drop(self) {
        let SteadySink { taken: _, most: _ } = self;
    }
}

impl Model for SteadySink {
    ghost use Rattle.std.specs.Prelude.{◌≤◌};
    ghost use Rattle.ags_outside.specs.SinkState.{SinkState};

    ghost Value = { SinkState };

    ghost view = { λ sink. record { bytes = sink.taken.items; most = sink.most } };

    ghost invariant = { λ sink. 1 ≤ sink.most };
}

impl SteadySink {
    /// A sink that took nothing, and takes at most so many bytes at once.
    pub fn new(alloc: Global, most: usize) -> SteadySink
        requires { 1 ≤ most }
        ensures empty { result.bytes ≡ [] }
        ensures most { result.most ≡ most }
    {
        SteadySink {
            taken: Vec::new(alloc),
            most,
        }
    }

    /// The bytes that it took.
    pub fn bytes(&self) -> &[u8]
        ensures { result.now ≡ self.now.bytes }
    {
        self.taken.as_slice()
    }
}

impl Sink for SteadySink {
    ghost told = { λ sink. Some sink.bytes };

    ghost faults = { λ _. 0 };

    fn put(&mut self, piece: &[u8]) -> PutDone
        requires { 0 < length piece.now }
        ensures took { TookWithin (min (length piece.now) self.old.most) result }
        ensures taken { Some self.new.bytes ≡ taken_after (Some self.old.bytes) piece.now result }
        ensures most { self.new.most ≡ self.old.most }
        ensures steady { IsSteadyPut (min (length piece.now) self.old.most) result }
    {
        let count = piece.len().min(self.most);
        match self.taken.extend_from_slice(&piece[..count]) {
            Ok(()) => PutDone::Took(count),
            Err(_) => PutDone::NoMemory,
        }
    }
}
