//! The acts that no guard can stop: steps, pulses, presses, and the steps of a cycle.

ghost use Rattle.std.specs.Prelude.{◌≡◌, ◌-◌, ◌≤◌};
ghost use Rattle.ags_ports.specs.declared.events.Phase.{Phase};
ghost use Rattle.ags_play.specs.Act as act;
ghost use Rattle.ags_play.specs.Doing.{carry_in};
ghost use Rattle.ags_run.specs.Playing.{Acted};

use crate::players::Player;
use ags_deda::Key;
use ags_ports::{Event, Phase};
use ags_timed::{CYCLE_MICROS, run_for, run_steps};

/// The carry that a cycle leaves in a phase, by the time that it had and the time of its orders.
pub fn carry_in(phase: Phase, had: u64, spent: u64) -> u64
    ensures carry { result ≡ carry_in phase had spent }
    ensures most { result ≤ spent - had }
{
    match phase {
        Phase::Running => spent.saturating_sub(had),
        Phase::Waiting | Phase::Halted => 0,
    }
}

impl<'a> Player<'a> {
    /// So many steps.
    pub(crate) fn step(&mut self, count: u32)
        ensures { Acted (act.MakesSteps count) self.old self.new }
    {
        let bench = &mut self.bench;
        run_steps(&mut bench.core, self.machine, count, &mut bench.listener);
    }

    /// A pulse of the timer.
    pub(crate) fn pulse(&mut self)
        ensures { Acted act.Pulses self.old self.new }
    {
        let bench = &mut self.bench;
        bench.core.act(self.machine, Event::Pulse);
    }

    /// A key is pressed.
    pub(crate) fn press(&mut self, key: Key)
        ensures { Acted (act.Presses key) self.old self.new }
    {
        let bench = &mut self.bench;
        bench.listener.panel.press(key);
    }

    /// Steps for the time that is left of a cycle.
    pub(crate) fn run_cycle(&mut self)
        ensures { Acted act.RunsCycle self.old self.new }
    {
        let bench = &mut self.bench;
        let had = CYCLE_MICROS - bench.carry;
        let spent = run_for(&mut bench.core, self.machine, had, &mut bench.listener);
        bench.carry = carry_in(bench.core.phase(), had, spent);
    }
}
