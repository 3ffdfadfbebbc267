//! The play of a script's commands, one after another.

ghost use Rattle.std.specs.Prelude.{All, IfOk, OnErr};
ghost use Rattle.ags_outside.specs.Count.{HasCause};
ghost use Rattle.ags_outside.specs.Send.{is_write_fault};
ghost use Rattle.ags_play.specs.Act.{acts_of};
ghost use Rattle.ags_run.specs.Playing.{PlayedActs, InPart};
ghost use Rattle.ags_script.specs.Suiting.{NamesLocation};

use crate::players::{Player, StoppedWord};
use ags_outside::{SendError, Sink};
use ags_ports::laws::machine_is_made_of_tables;
use ags_script::Script;

impl<'a> Player<'a> {
    /// Plays the commands of a script. What it met is the word that the guard stopped.
    pub(crate) fn play_commands<K: Sink>(
        &mut self,
        script: &Script,
        out: &mut K,
    ) -> Result<Option<StoppedWord>, SendError>
        requires { All NamesLocation script.now }
        ensures played { IfOk result (PlayedActs (acts_of script.now) (K.told out.old) (K.told out.new) self.old self.new) }
        ensures part { OnErr result (InPart (acts_of script.now) (K.told out.old) (K.told out.new) self.old) }
        ensures faults { HasCause (K.faults out.old) (K.faults out.new) (is_write_fault result) }
    {
        machine_is_made_of_tables(self.machine);
        for position in 0..script.len() {
            let command = script.nth(position);
            if let Some(stopped) = self.play_command(&command, out)? {
                return Ok(Some(stopped));
            }
        }
        Ok(None)
    }
}
