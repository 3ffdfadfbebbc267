//! The bench's one call.

ghost use Rattle.std.specs.Prelude.{◌≡◌, [], map};
ghost use Rattle.std.specs.String.{string_bytes};
ghost use Rattle.ags_bench.specs.Doing.{Does};
ghost use Rattle.ags_bench.specs.Program as definition;
ghost use Rattle.ags_bench.specs.Promises.{Promises};
ghost use Rattle.ags_bench.specs.Views.{IsReady, work_of};
ghost use Rattle.ags_bench.specs.Work as work;
ghost use Rattle.ags_outside.specs.Count.{HasCause};
ghost use Rattle.ags_outside.specs.Send.{is_write_fault};
ghost use Rattle.ags_plan.specs.Plan.{WorkAt};
ghost use Rattle.ags_plan.specs.Saying.{Says, settled};

use crate::loader::Bench;
use crate::works::Work;
use ags_benchjudged::drive_pair;
use ags_device::Device;
use ags_outside::{SendError, Shelf, Sink, send};
use ags_plan::load_or_say;
use ags_played::verdict_of;
use ags_program::Status;
use std::alloc::Global;

/// Says that the words are none of the forms.
fn say_forms<K: Sink>(out: &mut K) -> Result<Status, SendError>
    ensures says { Says (definition.program []) (WorkAt work.NoForm) (K.told out.old) (K.told out.new) result }
    ensures faults { HasCause (K.faults out.old) (K.faults out.new) (is_write_fault result) }
{
    send(out, b"WORDS\n").and(Ok(Status::BadWords))
}

/// Does a work that was loaded, with the devices.
fn perform<K: Sink>(
    alloc: Global,
    work: &Work,
    devices: &mut Vec<Box<dyn Device>>,
    out: &mut K,
) -> Result<Status, SendError>
    requires { IsReady work.now }
    ensures does { Does (work_of work.now) (map record_of devices.old.items) (K.told out.old) (K.told out.new) (map record_of devices.new.items) result }
    ensures faults { HasCause (K.faults out.old) (K.faults out.new) (is_write_fault result) }
{
    match work {
        Work::NoForm => say_forms(out),
        Work::DrivePair { pair, script } => {
            let verdict = verdict_of(&pair.machine, &pair.source.made.image, &pair.cert);
            drive_pair(alloc, pair, &verdict, script, devices, out)
        }
    }
}

/// The status of a call by what its last part came to.
fn settle(ended: Result<Status, SendError>) -> Status
    ensures { result ≡ settled (definition.program []) ended }
{
    match ended {
        Ok(status) => status,
        Err(SendError::WriteFault) => Status::WriteFault,
        Err(SendError::NoMemory) => Status::NoMemory,
    }
}

/// Runs the bench over the words after the program's name (docs/BENCH.md): the files that they name are read from the shelf, the
/// certificate is judged for the words of the source, and where it is certified the script is driven with the devices. Then no
/// input is put that the certificate doesn't declare, and each device is left as `specs/Outcome` says of the status, where what is
/// promised of a call stands clause by clause in `specs/Promises`.
pub fn bench_main<S: Shelf, K: Sink>(
    alloc: Global,
    words: &[String],
    shelf: &mut S,
    out: &mut K,
    devices: &mut Vec<Box<dyn Device>>,
) -> Status
    ensures { Promises
        (record {
          told = S.told shelf.old;
          words = map string_bytes words.now;
          old = K.told out.old;
          new = K.told out.new;
          devices = map record_of devices.old.items;
          devices_now = map record_of devices.new.items;
          result = result;
        })
        (record {
          faults = S.faults shelf.old;
          faults_now = S.faults shelf.new;
          absences = S.absences shelf.old;
          absences_now = S.absences shelf.new;
          sink_faults = K.faults out.old;
          sink_faults_now = K.faults out.new;
        }) }
{
    match load_or_say::<Bench, S, K>(alloc, words, shelf, out) {
        Ok(work) => settle(perform(alloc, &work, devices, out)),
        Err(status) => status,
    }
}
