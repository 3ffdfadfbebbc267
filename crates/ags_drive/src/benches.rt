//! The bench that a script is run on.

ghost use Rattle.std.specs.Prelude.{◌<◌, ◌^◌};

use crate::listeners::Listener;
use ags_core::Core;

/// The machine, the words that its orders gave, and the carry. The devices stand beside it, in the list of who calls.
#[derive(Drop)]
pub(crate) struct Bench {
    /// The machine.
    pub(crate) core: Core,
    /// What is noted of its steps.
    pub(crate) listener: Listener,
    /// The microseconds by which the last cycle's last order passed its end.
    pub(crate) carry: u64,
    /// How many words were put.
    pub(crate) puts: u64,
}

impl Bench {
    /// Does nothing: its contract tells the proofs that the steps that are counted are a number of 64 bits.
    pub(crate) fn steps_fit(&self)
        ensures { self.now.listener.steps < 2 ^ 64 }
    {
        let _steps = self.listener.steps;
    }
}
