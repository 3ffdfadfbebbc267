//! The bench that a script is played on.

ghost use Rattle.std.specs.Prelude.{◌<◌, ◌^◌};

use crate::listeners::Listener;
use ags_core::Core;

/// The machine, its panel, and the carry.
#[derive(Drop)]
pub(crate) struct Bench {
    /// The machine.
    pub(crate) core: Core,
    /// The panel.
    pub(crate) listener: Listener,
    /// The microseconds by which the last cycle's last order passed its end.
    pub(crate) carry: u64,
    /// How many words were put, modulo 2 ^ 64.
    pub(crate) puts: u64,
    // so that the proofs know its range wherever a bench is named
    pub(crate) ghost counted: { puts < 2 ^ 64 },
}
