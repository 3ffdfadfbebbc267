//! The command `run`: what a script shows of the machine that begins with a source's words.

ghost use Rattle.ags_asm.specs.Source.{card_words};
ghost use Rattle.ags_outside.specs.Count.{HasCause};
ghost use Rattle.ags_outside.specs.Send.{is_write_fault};
ghost use Rattle.ags_plan.specs.Plan.{WorkAt};
ghost use Rattle.ags_plan.specs.Saying.{Says};
ghost use Rattle.ags_script.specs.Script.{IsReadFor};
ghost use Rattle.ags_program.specs.Program.{program};
ghost use Rattle.ags_program.specs.Views.{IsReadMade};
ghost use Rattle.ags_program.specs.Work as work;

use ags_asm::Assembled;
use ags_outside::{SendError, Sink};
use ags_ports::Machine;
use ags_program::Status;
use ags_run::{PlayError, play};
use ags_script::Script;
use std::alloc::Global;

/// Plays a script's commands on a machine that begins with a source's words (the README, Commands). The status is `Done`; an error is a
/// fault of the output, or want of memory.
pub fn play_script<K: Sink>(
    alloc: Global,
    machine: &Machine,
    made: &Assembled,
    script: &Script,
    out: &mut K,
) -> Result<Status, SendError>
    requires made { IsReadMade made.now }
    requires script { IsReadFor machine.now script.now }
    ensures says { Says program (WorkAt (work.PlayScript machine.now (card_words made.now) script.now)) (K.told out.old) (K.told out.new) result }
    ensures faults { HasCause (K.faults out.old) (K.faults out.new) (is_write_fault result) }
{
    match play(alloc, machine, &made.image, script, None, out) {
        Ok(_) => Ok(Status::Done),
        Err(PlayError::WriteFault) => Err(SendError::WriteFault),
        Err(PlayError::NoMemory) => Err(SendError::NoMemory),
        // Without a guard nothing is outside.
        Err(PlayError::StartOutside(_)) => unreachable!(),
        Err(PlayError::InputRange { .. }) => unreachable!(),
    }
}
