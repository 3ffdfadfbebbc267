//! What is noted of the machine's steps.

use ags_ports::{Done, Stored};
use ags_timed::Watcher;

/// The words that orders gave to output registers within a cycle, which the devices hear once its steps are made.
#[derive(Drop)]
pub(crate) struct Listener {
    /// The words with their addresses, in order.
    pub(crate) given: Vec<Stored>,
    /// Whether memory was wanting for one of them.
    pub(crate) starved: bool,
    /// How many steps were made, modulo 2 ^ 64.
    pub(crate) steps: u64,
}

impl Watcher for Listener {
    ghost use Rattle.ags_drive.specs.Listening.{Notes};

    ghost looks = { Notes };

    fn saw(&mut self, report: &Done) {
        self.steps = self.steps.wrapping_add(1);
        if let Some(gave) = report.gave {
            if !self.starved && self.given.push(gave).is_err() {
                self.starved = true;
            }
        }
    }
}
