//! The program as the walk along its plans sees it: how the files of a command line are loaded, and how a work is done.

ghost use Rattle.std.specs.Prelude.{Some};
ghost use Rattle.ags_outside.specs.Count.{HasCause};
ghost use Rattle.ags_outside.specs.Send.{is_write_fault};
ghost use Rattle.ags_plan.specs.Plan.{WorkAt};
ghost use Rattle.ags_plan.specs.Saying.{Says};
ghost use Rattle.ags_program.specs.Program as definition;
ghost use Rattle.ags_program.specs.Status as status;
ghost use Rattle.ags_program.specs.Views as views;
ghost use Rattle.ags_program.specs.Work as work;

use crate::compare_command::compare_images;
use crate::judging::judge_pair;
use crate::write_command::write_text;
use ags_asked::load_asked;
use ags_command::read_asked;
use ags_outside::{SendError, Shelf, Sink, send};
use ags_plan::{Loader, Program, Stop, Unloaded};
use ags_played::play_script;
use ags_program::{Refusal, Status, Work};
use std::alloc::{AllocError, Global};

/// The program `ags`.
pub(crate) struct Ags;

/// Says that the arguments are none of the forms.
fn say_forms<K: Sink>(out: &mut K) -> Result<Status, SendError>
    ensures says { Says definition.program (WorkAt work.NoForm) (K.told out.old) (K.told out.new) result }
    ensures faults { HasCause (K.faults out.old) (K.faults out.new) (is_write_fault result) }
{
    send(out, b"WORDS\n").and(Ok(Status::BadWords))
}

impl Loader for Ags {
    type Status = Status;

    type Refusal = Refusal;

    type Work = Work;

    ghost definition = { definition.program };

    ghost plan_of = { definition.plan_of };

    ghost work_of = { views.work_of };

    ghost ready = { views.IsReady };

    ghost line_of = { views.line_of };

    ghost status_of = { views.status_of };

    fn stop_status(stop: Stop) -> Status {
        match stop {
            Stop::Absent => Status::AbsentFile,
            Stop::TooLong => Status::LongFile,
            Stop::ReadFault => Status::ReadFault,
            Stop::WriteFault => Status::WriteFault,
            Stop::NoMemory => Status::NoMemory,
        }
    }

    fn refusal_status(refusal: &Refusal) -> Status {
        refusal.status()
    }

    fn refusal_line(alloc: Global, refusal: &Refusal) -> Result<String, AllocError> {
        refusal.line(alloc)
    }

    fn load<'a, S: Shelf>(
        alloc: Global,
        arguments: &'a [String],
        shelf: &mut S,
    ) -> Result<Work, Unloaded<'a, Refusal>> {
        match read_asked(arguments) {
            Some(asked) => load_asked(alloc, asked, shelf),
            None => Ok(Work::NoForm),
        }
    }

    ghost use Rattle.ags_top.specs.ProgramLaws.{lawful_program};

    ghost lawful = { lawful_program };
}

impl Program for Ags {
    fn perform<K: Sink>(alloc: Global, work: Work, out: &mut K) -> Result<Status, SendError> {
        match work {
            Work::NoForm => say_forms(out),
            Work::WriteText { text, source } => write_text(alloc, text, &source, out),
            Work::CompareImages { made, listed } => compare_images(alloc, &made, &listed, out),
            Work::JudgePair { pair, sequel } => judge_pair(alloc, pair, sequel, out),
            Work::PlayScript {
                machine,
                made,
                script,
            } => play_script(alloc, &machine, &made, &script, out),
        }
    }
}
