//! Cycles of the timer.

ghost use Rattle.std.specs.Prelude.{ℕ, List, [], ◌∷◌, Option};
ghost use Rattle.ags_play.specs.Act as act;
ghost use Rattle.ags_run.specs.Playing.{PlayedActs};

use crate::players::{Player, StoppedWord};
use ags_ports::laws::machine_is_made_of_tables;

impl<'a> Player<'a> {
    /// One cycle: it feeds where the register's word is 0, gives a pulse, and makes steps for its time.
    fn run_one(&mut self) -> Option<StoppedWord>
        ensures { (told : Option (List ℕ)) → PlayedActs (act.FeedsWhereZero ∷ act.Pulses ∷ act.RunsCycle ∷ []) told told self.old self.new result }
    {
        if let Some(stopped) = self.feed_where_zero() {
            return Some(stopped);
        }
        self.pulse();
        self.run_cycle();
        None
    }

    /// So many cycles.
    pub(crate) fn run_cycles(&mut self, count: u32) -> Option<StoppedWord>
        ensures { (told : Option (List ℕ)) → PlayedActs (act.cycles count) told told self.old self.new result }
    {
        for _ in 0..count {
            if let Some(stopped) = self.run_one() {
                return Some(stopped);
            }
        }
        None
    }
}
