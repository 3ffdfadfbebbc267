//! One step of the machine.

ghost use Rattle.std.specs.Prelude.{◌≡◌, length};
ghost use Rattle.ags_ports.specs.State.{IsState, word_here};
ghost use Rattle.ags_ports.specs.declared.events.Phase.TheVariants.{Running};
ghost use Rattle.ags_ports.specs.declared.events.Event.TheVariants.{Pulse, Put, Step};
ghost use Rattle.ags_ports.specs.Step.{Steps, StepsIn, idle_report, phase_after_pulse};

use crate::cores::Core;
use ags_isa::decode;
use ags_ports::laws::machine_is_made_of_tables;
use ags_ports::{Done, Event, Machine, Phase};
use ags_word::Word;

impl Core {
    /// One step of the machine at an event, and what it tells. The tables of the machine stay with the core that they
    /// began: it has a word for each register of theirs.
    // A long script is steps and little else, so that the call counts.
    #[inline(always)]
    pub fn act(&mut self, machine: &Machine, event: Event) -> Done
        requires inputs { length self.old.inputs ≡ length machine.now.ports.inputs }
        requires outputs { length self.old.outputs ≡ length machine.now.ports.outputs }
        ensures step { Steps machine.now self.old event result self.new }
        ensures inputs { length self.new.inputs ≡ length self.old.inputs }
        ensures outputs { length self.new.outputs ≡ length self.old.outputs }
        ensures state { IsState machine.now self.old → IsState machine.now self.new }
    {
        machine_is_made_of_tables(machine);
        match event {
            Event::Step => self.step(machine),
            Event::Pulse => self.pulse(),
            Event::Put { address, word } => {
                let report = self.idle_report();
                self.put(machine, address, word);
                report
            }
        }
    }

    /// Runs the order at the location, where orders run.
    fn step(&mut self, machine: &Machine) -> Done
        requires inputs { length self.old.inputs ≡ length machine.now.ports.inputs }
        requires outputs { length self.old.outputs ≡ length machine.now.ports.outputs }
        ensures { StepsIn self.old.phase machine.now self.old result self.new }
    {
        match self.phase {
            Phase::Running => self.run(machine),
            Phase::Waiting | Phase::Halted => self.idle_report(),
        }
    }

    /// Runs the order at the location; where there is none, the machine halts.
    fn run(&mut self, machine: &Machine) -> Done
        requires inputs { length self.old.inputs ≡ length machine.now.ports.inputs }
        requires outputs { length self.old.outputs ≡ length machine.now.ports.outputs }
        ensures { StepsIn Running machine.now self.old result self.new }
    {
        let location = self.location();
        let word = self.word_here();
        match decode(&machine.codes, word) {
            Some(decoded) => self.obey(machine, decoded).ran(location, word),
            None => {
                let report = self.idle_report();
                self.phase = Phase::Halted;
                report
            }
        }
    }

    /// A pulse of the timer.
    fn pulse(&mut self) -> Done
        ensures told { result ≡ idle_report self.old }
        ensures after { self.new ≡ record self.old { phase = phase_after_pulse self.old.phase } }
    {
        let report = self.idle_report();
        if matches!(self.phase, Phase::Waiting) {
            self.phase = Phase::Running;
        }
        report
    }

    /// The word at the location.
    fn word_here(&self) -> Word
        ensures { result ≡ word_here self.now }
    {
        self.cells[self.location as usize]
    }

    /// What is reported of an event that runs no order.
    fn idle_report(&self) -> Done
        ensures { result ≡ idle_report self.now }
    {
        Done {
            ran: false,
            location: self.location(),
            word: self.word_here(),
            overflow: false,
            stored: None,
            took: None,
            gave: None,
        }
    }
}
