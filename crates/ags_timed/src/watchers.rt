//! Who is told of each step.

ghost use Rattle.ags_ports.specs.declared.events.Done.{Done};

use ags_ports::Done;

/// One who is told of each step of a run, as the panel is.
pub trait Watcher {
    /// What a look at a report makes of the watcher: how it stands before, and after.
    ghost looks: { Self → Done → Self → Type 0 };

    /// Tells it of a step.
    fn saw(&mut self, report: &Done)
        ensures { looks self.old report.now self.new };
}
