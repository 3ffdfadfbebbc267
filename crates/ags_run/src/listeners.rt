//! The panel as it listens to the machine.

ghost use Rattle.std.specs.Prelude.{◌<◌, ◌≤◌, ◌^◌};

use ags_deda::Panel;
use ags_ports::Done;
use ags_timed::Watcher;

/// The panel, which is told of each step.
#[derive(Drop)]
pub(crate) struct Listener {
    /// The panel.
    pub(crate) panel: Panel,
    /// The output register that it is connected to, where the machine has it.
    pub(crate) address: Option<u16>,
    /// How many steps it was told of, modulo 2 ^ 64.
    pub(crate) steps: u64,
    // so that the proofs know its range wherever a listener is named
    pub(crate) ghost counted: { steps < 2 ^ 64 },
}

impl Listener {
    ghost use Rattle.std.specs.Prelude.{◌≡◌, IfSome};
    ghost use Rattle.ags_run.specs.Hearing.{heard};

    /// The digit that a report shows to the panel.
    fn heard(&self, report: &Done) -> Option<u8>
        ensures digit { result ≡ heard self.now.address report.now.gave }
        ensures most { IfSome result (λ digit. digit ≤ 15) }
    {
        let (Some(address), Some(gave)) = (self.address, report.gave) else {
            return None;
        };
        if gave.address == address {
            Some((gave.word.number() % 16) as u8)
        } else {
            None
        }
    }
}

impl Watcher for Listener {
    ghost use Rattle.ags_run.specs.Hearing.{Hears};

    ghost looks = { Hears };

    fn saw(&mut self, report: &Done) {
        self.steps = self.steps.wrapping_add(1);
        if let Some(digit) = self.heard(report) {
            // it is at most 15
            let _ = self.panel.shown(digit);
        }
    }
}
