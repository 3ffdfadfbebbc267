//! The program's one call.

ghost use Rattle.std.specs.Prelude.{map};
ghost use Rattle.std.specs.String.{string_bytes};
ghost use Rattle.ags_top.specs.Promises.{Promises};

use crate::program::Ags;
use ags_outside::{Shelf, Sink};
use ags_program::Status;
use std::alloc::Global;

/// Runs the program over the arguments after its name: the files that they name are read from the shelf, and the answer is sent
/// to the sink. The statuses, and what each comes with, are in the README; what is promised of a call stands clause by clause in
/// `specs/Promises`.
pub fn ags_main<S: Shelf, K: Sink>(
    alloc: Global,
    arguments: &[String],
    shelf: &mut S,
    out: &mut K,
) -> Status
    ensures { Promises
        (record { told = S.told shelf.old; arguments = map string_bytes arguments.now; old = K.told out.old; new = K.told out.new; result = result })
        (record {
          faults = S.faults shelf.old;
          faults_now = S.faults shelf.new;
          absences = S.absences shelf.old;
          absences_now = S.absences shelf.new;
          sink_faults = K.faults out.old;
          sink_faults_now = K.faults out.new;
        }) }
{
    ags_plan::run::<Ags, S, K>(alloc, arguments, shelf, out)
}
