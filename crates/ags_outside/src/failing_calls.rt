//! Calls of which some fail, by their numbers.

ghost use Rattle.std.specs.Prelude.{◌≡◌, [], ◌∷◌, ◌++◌, OnOk, OnErr};
ghost use Rattle.ags_outside.specs.FailingCalls.{fails_next, next_call};

use std::alloc::{AllocError, Global};
use std::marker::Model;

/// How many calls were made, and which of them fail.
pub(crate) struct FailingCalls {
    made: u64,
    failing: Vec<u64>,
}

// Written, so that whoever lets one go calls this, and the checker follows no part of it there.
impl Drop for FailingCalls {
    fn drop(self) {
        let FailingCalls {
            made: _,
            failing: _,
        } = self;
    }
}

impl Model for FailingCalls {
    ghost use Rattle.ags_outside.specs.FailingCalls.{Calls};

    ghost Value = { Calls };

    ghost view = { λ calls. record { made = calls.made; failing = calls.failing.items } };
}

impl FailingCalls {
    /// No call was made, and none fails.
    pub(crate) fn new(alloc: Global) -> FailingCalls
        ensures made { result.made ≡ 0 }
        ensures failing { result.failing ≡ [] }
    {
        FailingCalls {
            made: 0,
            failing: Vec::new(alloc),
        }
    }

    /// Lets the call of a number fail, the first being number 1. Where memory is wanting nothing changes.
    pub(crate) fn add(&mut self, call: u64) -> Result<(), AllocError>
        ensures added { OnOk result (self.new ≡ record self.old { failing = self.old.failing ++ call ∷ [] }) }
        ensures kept { OnErr result (self.new ≡ self.old) }
    {
        self.failing.push(call)?;
        Ok(())
    }

    /// Counts the next call, and tells whether it fails.
    pub(crate) fn fail_next(&mut self) -> bool
        ensures fails { result ≡ fails_next self.old }
        ensures counted { self.new ≡ record self.old { made = next_call self.old.made } }
    {
        self.made = self.made.saturating_add(1);
        let call = self.made;
        self.failing.iter().any(|other| *other == call)
    }
}
