//! A shelf in memory of which some calls fail.

ghost use Rattle.std.specs.Prelude.{◌≡◌, ◌<◌, ◌≤◌, [], ◌∷◌, ◌++◌, OnOk, OnErr, length};
ghost use Rattle.ags_outside.specs.Files.{Puts, bytes_of};
ghost use Rattle.ags_outside.specs.FailingCalls.{fails_next, next_call};
ghost use Rattle.ags_outside.specs.MemoryState.{IsMemoryPull, faults_after};
ghost use Rattle.ags_outside.specs.Shelf.{GotWithin, PullTells, absences_after, is_failed_pull};
ghost use Rattle.ags_outside.specs.ToldFile.{told_of};

use crate::failing_calls::FailingCalls;
use crate::steady_shelf::SteadyShelf;
use crate::{Pull, Shelf};
use std::alloc::{AllocError, Global};
use std::marker::Model;

/// Files in memory. It tells of every name, and fails at the calls that are listed and at no other.
pub struct MemoryShelf {
    held: SteadyShelf,
    faults: u64,
    calls: FailingCalls,
}

// Written, so that whoever lets one go calls this, and the checker follows no part of it there.
impl Drop for MemoryShelf {
    fn drop(self) {
        let MemoryShelf {
            held: _,
            faults: _,
            calls: _,
        } = self;
    }
}

impl Model for MemoryShelf {
    ghost use Rattle.ags_outside.specs.MemoryState.{MemoryShelfState};

    ghost Value = { MemoryShelfState };

    ghost view = { λ shelf. record { files = shelf.held.files; absences = shelf.held.absences; faults = shelf.faults; calls = shelf.calls } };
}

impl MemoryShelf {
    /// A shelf without files, of which no call fails.
    pub fn new(alloc: Global) -> MemoryShelf
        ensures empty { result.files ≡ [] }
        ensures absences { result.absences ≡ 0 }
        ensures faults { result.faults ≡ 0 }
        ensures made { result.calls.made ≡ 0 }
        ensures failing { result.calls.failing ≡ [] }
    {
        MemoryShelf {
            held: SteadyShelf::new(alloc),
            faults: 0,
            calls: FailingCalls::new(alloc),
        }
    }

    /// Adds a file, in place of one of that name. Where memory is wanting nothing changes.
    pub fn add(&mut self, name: &str, bytes: &[u8]) -> Result<(), AllocError>
        ensures added { OnOk result (Puts self.old.files self.new.files name.now bytes.now) }
        ensures kept { OnErr result (self.new ≡ self.old) }
        ensures others { self.new ≡ record self.old { files = self.new.files } }
    {
        self.held.add(name, bytes)
    }

    /// Lets the pull of a number fail, the first pull of the shelf being number 1. A number after which the shelf already is, or one
    /// that was listed before, changes nothing of what it answers. Where memory is wanting nothing changes.
    pub fn fail_at(&mut self, call: u64) -> Result<(), AllocError>
        ensures listed { OnOk result (self.new ≡ record self.old { calls = record self.old.calls { failing = self.old.calls.failing ++ call ∷ [] } }) }
        ensures kept { OnErr result (self.new ≡ self.old) }
    {
        self.calls.add(call)
    }
}

impl Shelf for MemoryShelf {
    ghost told = { λ shelf name. told_of (bytes_of shelf.files name) };

    ghost faults = { λ shelf. shelf.faults };

    ghost absences = { λ shelf. shelf.absences };

    fn pull(&mut self, name: &str, from: u64, into: &mut [u8]) -> Pull
        requires { 0 < length into.old }
        ensures files { self.new.files ≡ self.old.files }
        ensures calls { self.new.calls ≡ record self.old.calls { made = next_call self.old.calls.made } }
        ensures absences { self.new.absences ≡ absences_after self.old.absences result }
        ensures absences_stay { self.old.absences ≤ self.new.absences }
        ensures faults { self.new.faults ≡ faults_after self.old.faults (is_failed_pull result) }
        ensures faults_stay { self.old.faults ≤ self.new.faults }
        ensures got { GotWithin (length into.old) result }
        ensures tells { PullTells (told_of (bytes_of self.old.files name.now)) from into.new result }
        ensures exactly { IsMemoryPull (fails_next self.old.calls) (bytes_of self.old.files name.now) from (length into.old) result }
    {
        if self.calls.fail_next() {
            self.faults = self.faults.saturating_add(1);
            return Pull::Failed;
        }
        self.held.pull(name, from, into)
    }
}
