//! What is known of the lines that have ended.

use crate::gatherer::Gatherer;
use crate::states::State;
use ags_ports::Ports;
use std::alloc::Global;
use std::marker::Model;

/// The lines of a certificate that have ended, or the first fault among them.
#[derive(Drop)]
pub(crate) struct EndedLines {
    pub(crate) alloc: Global,
    pub(crate) ports: Ports,
    /// How many they are.
    pub(crate) number: u32,
    /// What is gathered of them, where no fault was found.
    pub(crate) gatherer: Gatherer,
    pub(crate) state: State,
}

impl Model for EndedLines {
    ghost use Rattle.ags_certread.specs.Gathered.{IsStateOfStatements};
    ghost use Rattle.ags_certread.specs.Gathering.{gathering_of};
    ghost use Rattle.ags_certread.specs.Kept.{KeptLines};

    ghost Value = { KeptLines };

    ghost view = { λ lines. record { ports = lines.ports; number = lines.number; gathered = gathering_of lines.gatherer; state = lines.state } };

    ghost invariant = { λ lines. IsStateOfStatements (gathering_of lines.gatherer) lines.state };
}
