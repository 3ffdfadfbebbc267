//! A run over any shelf and any sink: what a real process does, but for making the real ones.

ghost use Rattle.std.specs.Prelude.{◌≡◌, ◌≢◌, ℕ, true, false, IfOk, IfErr, List, [], drop, map};
ghost use Rattle.std.specs.IoError.{error_kind};
ghost use Rattle.std.specs.String.{string_bytes};
ghost use Rattle.std.specs.Vec.Iter.{into_iter_items};
ghost use Rattle.ags_outside.specs.Count.{Rose};
ghost use Rattle.ags_plan.specs.Answer.{IsAnswer, TellsFiles};
ghost use Rattle.ags_plan.specs.Outcome.{Ends, EndsExactly, IsCleanOnShelf, IsCleanOnSink};
ghost use Rattle.ags_process.specs.Ended.{OnSink};
ghost use Rattle.ags_program.specs.Program.{plan_of, program};

use ags_edge::HeldSink;
use ags_outside::Shelf;
use ags_top::{Status, ags_main, each_command_has_an_answer};
use std::alloc::{AllocError, Global};
use std::env::Args;
use std::io::{self, ErrorKind};

/// What came of a run: the status that the program answered, and whether all that the sink took was written then.
#[derive(Clone, Copy)]
pub struct Ran {
    /// The status of `ags_main`.
    pub status: Status,
    /// Whether nothing was held back at the end.
    pub written: bool,
}

impl Ran {
    /// The status that the process ends with: that of the program, and `WriteFault` where the output wasn't written.
    pub fn ended(self) -> Status
        ensures written { self.written ≡ true → result ≡ self.status }
        ensures unwritten { self.written ≡ false → result ≡ Status.WriteFault }
    {
        if self.written {
            self.status
        } else {
            Status::WriteFault
        }
    }

    /// A run that couldn't be begun, and wrote nothing.
    fn unbegun(status: Status) -> Ran
        ensures status { result.status ≡ status }
        ensures written { result.written ≡ true }
    {
        Ran {
            status,
            written: true,
        }
    }
}

/// The arguments after the program's name.
fn arguments_of(alloc: Global, all: Args) -> Result<Vec<String>, AllocError>
    ensures { IfOk result (λ arguments. arguments.items ≡ drop 1 (into_iter_items all)) }
{
    let mut arguments = Vec::new(alloc);
    let mut rest = all;
    let _name = rest.next();
    for argument in rest {
        arguments.push(argument)?;
    }
    Ok(arguments)
}

/// The arguments after the program's name, and none where they can't be had.
pub(crate) fn words_of(alloc: Global, again: io::Result<Args>) -> Vec<String>
    ensures { result.items ≢ [] → IfOk again (λ all. result.items ≡ drop 1 (into_iter_items all)) }
{
    match again {
        Ok(all) => match arguments_of(alloc, all) {
            Ok(arguments) => arguments,
            Err(_) => Vec::new(alloc),
        },
        Err(_) => Vec::new(alloc),
    }
}

/// The status of a run whose arguments couldn't be had: there was no memory for them, or one of them isn't UTF-8.
fn status_of_error(error: &io::Error) -> Status
    ensures memory { error_kind error.now ≡ ErrorKind.OutOfMemory → result ≡ Status.NoMemory }
    ensures no_text { error_kind error.now ≢ ErrorKind.OutOfMemory → result ≡ Status.BadWords }
{
    if error.kind() == ErrorKind::OutOfMemory {
        Status::NoMemory
    } else {
        Status::BadWords
    }
}

/// Runs the program over the arguments after its name, and answers its status; there is no other where memory is wanting for
/// the arguments themselves.
fn answer<S: Shelf, K: HeldSink>(alloc: Global, all: Args, shelf: &mut S, out: &mut K) -> Status
    ensures content { Ends program (IsAnswer program (S.told shelf.old) (plan_of (map string_bytes (drop 1 (into_iter_items all))))) (K.told out.old) (K.told out.new) result }
    ensures exactly { TellsFiles program (S.told shelf.old) (plan_of (map string_bytes (drop 1 (into_iter_items all)))) → (text : List ℕ) (status : Status)
        → IsAnswer program (S.told shelf.old) (plan_of (map string_bytes (drop 1 (into_iter_items all)))) text status
        → EndsExactly program (K.told out.old) (K.told out.new) result text status }
    ensures absent_cause { result ≡ Status.AbsentFile → Rose (S.absences shelf.old) (S.absences shelf.new) }
    ensures read_fault { result ≡ Status.ReadFault → Rose (S.faults shelf.old) (S.faults shelf.new) }
    ensures write_fault { result ≡ Status.WriteFault → Rose (K.faults out.old) (K.faults out.new) }
    ensures clean_shelf { IsCleanOnShelf program (S.told shelf.old) (plan_of (map string_bytes (drop 1 (into_iter_items all)))) (K.told out.old) (K.told out.new) result
        (S.faults shelf.new ≡ S.faults shelf.old) (S.absences shelf.new ≡ S.absences shelf.old) }
    ensures clean_sink { IsCleanOnSink program result (K.faults out.new ≡ K.faults out.old) }
{
    each_command_has_an_answer();
    match arguments_of(alloc, all) {
        Ok(arguments) => ags_main(alloc, &arguments, shelf, out),
        Err(_) => Status::NoMemory,
    }
}

/// Runs the program over the arguments after its name, and then finishes the sink: what it holds at the end was written, or
/// the status that the process ends with is `WriteFault`. Of content and counts this says what `ags_main` does.
pub fn run_over<S: Shelf, K: HeldSink>(alloc: Global, all: Args, shelf: &mut S, out: &mut K) -> Ran
    ensures content { Ends program (IsAnswer program (S.told shelf.old) (plan_of (map string_bytes (drop 1 (into_iter_items all))))) (K.told out.old) (K.told out.new) result.status }
    ensures exactly { TellsFiles program (S.told shelf.old) (plan_of (map string_bytes (drop 1 (into_iter_items all)))) → (text : List ℕ) (status : Status)
        → IsAnswer program (S.told shelf.old) (plan_of (map string_bytes (drop 1 (into_iter_items all)))) text status
        → EndsExactly program (K.told out.old) (K.told out.new) result.status text status }
    ensures written { result.written ≡ true → K.is_written out.new }
    ensures unwritten { result.written ≡ false → Rose (K.faults out.old) (K.faults out.new) }
    ensures absent_cause { result.status ≡ Status.AbsentFile → Rose (S.absences shelf.old) (S.absences shelf.new) }
    ensures read_fault { result.status ≡ Status.ReadFault → Rose (S.faults shelf.old) (S.faults shelf.new) }
    ensures write_fault { result.status ≡ Status.WriteFault → Rose (K.faults out.old) (K.faults out.new) }
    ensures clean_shelf { IsCleanOnShelf program (S.told shelf.old) (plan_of (map string_bytes (drop 1 (into_iter_items all)))) (K.told out.old) (K.told out.new) result.status
        (S.faults shelf.new ≡ S.faults shelf.old) (S.absences shelf.new ≡ S.absences shelf.old) }
    ensures clean_sink { result.written ≡ true → IsCleanOnSink program result.status (K.faults out.new ≡ K.faults out.old) }
{
    let status = answer(alloc, all, shelf, out);
    let written = out.finish();
    Ran { status, written }
}

/// The same with the arguments as the system hands them over and a sink that there may have been no memory for. Where there
/// are no arguments in text, or no sink, nothing is read and nothing is sent.
pub fn run<S: Shelf, K: HeldSink>(
    alloc: Global,
    arguments: io::Result<Args>,
    shelf: &mut S,
    out: &mut io::Result<K>,
) -> Ran
    ensures ran { IfOk arguments (λ all. OnSink out.old out.new
        (λ before after. Ends program (IsAnswer program (S.told shelf.old) (plan_of (map string_bytes (drop 1 (into_iter_items all))))) (K.told before) (K.told after) result.status)) }
    ensures exactly { IfOk arguments (λ all. OnSink out.old out.new
        (λ before after. TellsFiles program (S.told shelf.old) (plan_of (map string_bytes (drop 1 (into_iter_items all)))) → (text : List ℕ) (status : Status)
        → IsAnswer program (S.told shelf.old) (plan_of (map string_bytes (drop 1 (into_iter_items all)))) text status
        → EndsExactly program (K.told before) (K.told after) result.status text status)) }
    ensures written { OnSink out.old out.new (λ before after. IfOk arguments (λ all. result.written ≡ true → K.is_written after)) }
    ensures unwritten { OnSink out.old out.new (λ before after. result.written ≡ false → Rose (K.faults before) (K.faults after)) }
    ensures absent_cause { result.status ≡ Status.AbsentFile → Rose (S.absences shelf.old) (S.absences shelf.new) }
    ensures read_fault { result.status ≡ Status.ReadFault → Rose (S.faults shelf.old) (S.faults shelf.new) }
    ensures write_fault { OnSink out.old out.new (λ before after. result.status ≡ Status.WriteFault → Rose (K.faults before) (K.faults after)) }
    ensures clean_shelf { IfOk arguments (λ all. OnSink out.old out.new
        (λ before after. IsCleanOnShelf program (S.told shelf.old) (plan_of (map string_bytes (drop 1 (into_iter_items all)))) (K.told before) (K.told after) result.status
        (S.faults shelf.new ≡ S.faults shelf.old) (S.absences shelf.new ≡ S.absences shelf.old))) }
    ensures clean_sink { IfOk arguments (λ all. OnSink out.old out.new
        (λ before after. result.written ≡ true → IsCleanOnSink program result.status (K.faults after ≡ K.faults before))) }
    ensures no_sink { IfOk arguments (λ all. IfErr out.old (λ error. result.status ≡ Status.NoMemory)) }
    ensures unmade { IfOk arguments (λ all. IfErr out.old (λ error. (out.new ≡ out.old) × (shelf.new ≡ shelf.old) × (result.written ≡ true))) }
    ensures memory { IfErr arguments (λ error. error_kind error ≡ ErrorKind.OutOfMemory → result.status ≡ Status.NoMemory) }
    ensures no_text { IfErr arguments (λ error. error_kind error ≢ ErrorKind.OutOfMemory → result.status ≡ Status.BadWords) }
    ensures unbegun { IfErr arguments (λ error. (out.new ≡ out.old) × (shelf.new ≡ shelf.old) × (result.written ≡ true)) }
{
    match arguments {
        Ok(all) => match out {
            Ok(sink) => run_over(alloc, all, shelf, sink),
            Err(_) => Ran::unbegun(Status::NoMemory),
        },
        Err(error) => Ran::unbegun(status_of_error(&error)),
    }
}
