//! A machine: its tables.

ghost use Rattle.std.specs.Prelude.{◌≡◌, ◌≤◌};
ghost use Rattle.ags_ports.specs.Time.{time_of};

use crate::registers::{Port, Ports};
use crate::time_tables::Times;
use ags_isa::{Codes, Order};

/// A machine: the codes and the times of its orders, its registers, and the registers that the panel is connected to.
#[derive(Drop)]
pub struct Machine {
    /// The orders' codes.
    pub codes: Codes,
    /// The orders' times.
    pub times: Times,
    /// The input and output registers.
    pub ports: Ports,
    /// The address of the input register that the panel's digits go to; where there is none, it isn't connected.
    pub deda_in: u16,
    /// The address of the output register that the panel is shown; where there is none, it isn't connected.
    pub deda_out: u16,
}

impl Machine {
    ghost use Rattle.ags_ports.specs.Machine.{IsMachine, standard_machine};

    /// The standard machine.
    pub fn standard() -> Machine
        ensures standard { result ≡ standard_machine }
        ensures tables { IsMachine result }
    {
        Machine {
            codes: Codes::standard(),
            times: Times::standard(),
            ports: Ports::standard(),
            deda_in: 0o2200,
            deda_out: 0o6200,
        }
    }

    /// How long an order takes, in microseconds.
    pub fn time_of(&self, order: Order) -> u32
        ensures time { result ≡ time_of self.now.times order }
        ensures least { 1 ≤ result }
        ensures most { result ≤ 1000 }
    {
        self.times.time_of(order)
    }
}
