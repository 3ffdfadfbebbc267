//! One who plays a script.

ghost use Rattle.std.specs.Prelude.{◌≡◌, ◌≤◌, length};
ghost use Rattle.std.proofs.Props.{props};
ghost use Rattle.ags_run.specs.Hearing.{listening};
ghost use Rattle.ags_timed.specs.Limit.{cycle_micros};

use crate::benches::Bench;
use ags_certtype::Cert;
use ags_ports::Machine;
use ags_word::Word;

/// A word that the guard stopped, and where it was to be put.
#[derive(Clone, Copy)]
pub(crate) struct StoppedWord {
    /// The input register's address.
    pub(crate) address: u16,
    /// The word.
    pub(crate) word: Word,
}

/// One who plays a script on a machine: its bench, and the certificate that guards what is put, where there is one. The bench has
/// the machine's registers, and its panel listens where the machine has it.
#[derive(Drop)]
pub(crate) struct Player<'a> {
    /// The machine.
    pub(crate) machine: &'a Machine,
    /// The certificate.
    pub(crate) guard: Option<&'a Cert>,
    /// The bench.
    pub(crate) bench: Bench,
    pub(crate) ghost inputs: { length bench.core.inputs ≡ length machine.now.ports.inputs },
    pub(crate) ghost outputs: { length bench.core.outputs ≡ length machine.now.ports.outputs },
    pub(crate) ghost address: { bench.listener.address ≡ listening machine.now } by { Prim.hlevel props },
    pub(crate) ghost carry: { bench.carry ≤ cycle_micros },
}
