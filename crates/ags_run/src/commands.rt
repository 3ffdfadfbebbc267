//! The play of one command.

ghost use Rattle.std.specs.Prelude.{ℕ, List, Option, None, IfOk, OnOk, OnErr};
ghost use Rattle.ags_outside.specs.Count.{HasCause};
ghost use Rattle.ags_outside.specs.Send.{is_write_fault};
ghost use Rattle.ags_play.specs.Act.{acts_of_command};
ghost use Rattle.ags_run.specs.Playing.{PlayedActs, InPart, shown_acts, made_acts};
ghost use Rattle.ags_script.specs.Suiting.{NamesLocation};

use crate::players::{Player, StoppedWord};
use ags_outside::{SendError, Sink};
use ags_script::Command;

impl<'a> Player<'a> {
    /// Makes the acts of a command, save those that show. What it met is the word that the guard stopped.
    fn make(&mut self, command: &Command) -> Option<StoppedWord>
        ensures { (told : Option (List ℕ)) → PlayedActs (made_acts command.now) told told self.old self.new result }
    {
        match *command {
            Command::Step(count) => {
                self.step(count);
                None
            }
            Command::Pulse => {
                self.pulse();
                None
            }
            Command::Press(key) => {
                self.press(key);
                None
            }
            Command::Set { address, word } => self.set(address, word),
            Command::Feed => self.feed(),
            Command::Cycle(count) => self.run_cycles(count),
            _ => None,
        }
    }

    /// Prints what a command shows.
    fn show<K: Sink>(&self, command: &Command, out: &mut K) -> Result<(), SendError>
        requires { NamesLocation command.now }
        ensures shown { OnOk result (PlayedActs (shown_acts command.now) (K.told out.old) (K.told out.new) self.now self.now None) }
        ensures part { OnErr result (InPart (acts_of_command command.now) (K.told out.old) (K.told out.new) self.now) }
        ensures faults { HasCause (K.faults out.old) (K.faults out.new) (is_write_fault result) }
    {
        match *command {
            Command::ShowReg => self.show_reg(out),
            Command::ShowCell(address) => self.show_cell(address, out),
            Command::ShowOut(address) => self.show_out(address, out),
            Command::ShowDeda => self.show_deda(out),
            _ => Ok(()),
        }
    }

    /// Plays a command: prints what it shows, or makes its acts. What it met is the word that the guard stopped.
    pub(crate) fn play_command<K: Sink>(
        &mut self,
        command: &Command,
        out: &mut K,
    ) -> Result<Option<StoppedWord>, SendError>
        requires { NamesLocation command.now }
        ensures played { IfOk result (PlayedActs (acts_of_command command.now) (K.told out.old) (K.told out.new) self.old self.new) }
        ensures part { OnErr result (InPart (acts_of_command command.now) (K.told out.old) (K.told out.new) self.old) }
        ensures faults { HasCause (K.faults out.old) (K.faults out.new) (is_write_fault result) }
    {
        self.show(command, out)?;
        Ok(self.make(command))
    }
}
