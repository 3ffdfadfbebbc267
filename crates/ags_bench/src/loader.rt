//! The bench as the walk along its plans sees it. What is loaded doesn't depend on the devices: the walk is that of the bench
//! without any.

ghost use Rattle.std.specs.Prelude.{◌≡◌, []};
ghost use Rattle.ags_bench.specs.Program as definition;
ghost use Rattle.ags_program.specs.Status.{stop_status};
ghost use Rattle.ags_bench.specs.Views as views;

use crate::loading::load_asked;
use crate::refusal::Refusal;
use crate::words::read_words;
use crate::works::Work;
use ags_outside::Shelf;
use ags_plan::{Loader, Stop, Unloaded};
use ags_program::Status;
use std::alloc::{AllocError, Global};

/// The bench.
pub(crate) struct Bench;

/// The status of a stop.
pub(crate) fn status_of_stop(stop: Stop) -> Status
    ensures { result ≡ stop_status stop }
{
    match stop {
        Stop::Absent => Status::AbsentFile,
        Stop::TooLong => Status::LongFile,
        Stop::ReadFault => Status::ReadFault,
        Stop::WriteFault => Status::WriteFault,
        Stop::NoMemory => Status::NoMemory,
    }
}

impl Loader for Bench {
    type Status = Status;

    type Refusal = Refusal;

    type Work = Work;

    ghost definition = { definition.program [] };

    ghost plan_of = { definition.plan_of [] };

    ghost work_of = { views.work_of };

    ghost ready = { views.IsReady };

    ghost line_of = { views.line_of };

    ghost status_of = { views.status_of };

    fn stop_status(stop: Stop) -> Status {
        status_of_stop(stop)
    }

    fn refusal_status(refusal: &Refusal) -> Status {
        refusal.status()
    }

    fn refusal_line(alloc: Global, refusal: &Refusal) -> Result<String, AllocError> {
        refusal.line(alloc)
    }

    fn load<'a, S: Shelf>(
        alloc: Global,
        arguments: &'a [String],
        shelf: &mut S,
    ) -> Result<Work, Unloaded<'a, Refusal>> {
        match read_words(arguments) {
            Some(asked) => load_asked(alloc, asked, shelf),
            None => Ok(Work::NoForm),
        }
    }

    ghost use Rattle.ags_bench.specs.ProgramLaws.{lawful_program};

    ghost lawful = { lawful_program [] };
}
