//! A run of a program: it loads, or says why it doesn't, and then does what it loaded.

ghost use Rattle.std.specs.Prelude.{◌≡◌, ℕ, List, IfOk, IfErr, OnOk, map};
ghost use Rattle.std.specs.String.{string_bytes};
ghost use Rattle.ags_plan.specs.Answer.{IsAnswer};
ghost use Rattle.ags_plan.specs.Outcome.{CountsOnShelf, CountsOnSink, Ends};
ghost use Rattle.ags_plan.specs.Plan.{WorkAt};
ghost use Rattle.ags_plan.specs.Saying.{SaysEarly};
ghost use Rattle.ags_plan.specs.Walk.{Agrees, EndsAt, Told};

use crate::program::{Loader, Program};
use crate::saying::{say_unloaded, settle};
use ags_outside::{Shelf, Sink};
use std::alloc::Global;

/// Loads all that the arguments of a command line ask for, and hands over the work that the walk comes to: the sink isn't touched
/// then. Or one line says why it isn't loaded, and the error is the status that the run ends with.
pub fn load_or_say<P: Loader, S: Shelf, K: Sink>(
    alloc: Global,
    arguments: &[String],
    shelf: &mut S,
    out: &mut K,
) -> Result<P::Work, P::Status>
    ensures ends { IfOk result (λ work. EndsAt P.definition Agrees (S.told shelf.old) (P.plan_of (map string_bytes arguments.now)) (WorkAt (P.work_of work))) }
    ensures made_ready { IfOk result P.ready }
    ensures untouched { OnOk result (out.new ≡ out.old) }
    ensures no_fault { OnOk result (S.faults shelf.new ≡ S.faults shelf.old) }
    ensures no_absence { OnOk result (S.absences shelf.new ≡ S.absences shelf.old) }
    ensures content { IfErr result (λ status. Ends P.definition (IsAnswer P.definition (S.told shelf.old) (P.plan_of (map string_bytes arguments.now)))
        (K.told out.old) (K.told out.new) status) }
    ensures shelf { IfErr result (λ status. CountsOnShelf P.definition (S.told shelf.old) (P.plan_of (map string_bytes arguments.now)) (K.told out.old) (K.told out.new) status
        (S.faults shelf.old) (S.faults shelf.new) (S.absences shelf.old) (S.absences shelf.new)) }
    ensures sink { IfErr result (λ status. CountsOnSink P.definition status (K.faults out.old) (K.faults out.new)) }
    // What is said is said of an end before any work, so that it is the same whatever a work makes.
    ensures early { IfErr result (λ status. SaysEarly P.definition (S.told shelf.old) (P.plan_of (map string_bytes arguments.now)) (K.told out.old) (K.told out.new) status) }
{
    match P::load(alloc, arguments, shelf) {
        Ok(work) => Ok(work),
        Err(why) => Err(settle::<P>(say_unloaded::<P, K>(alloc, why, out))),
    }
}

/// Does a work that was loaded. Whatever files and arguments led to it, what is said of its run holds.
pub fn do_work<P: Program, K: Sink>(alloc: Global, work: P::Work, out: &mut K) -> P::Status
    requires { P.ready work }
    ensures content { (told : Told) (arguments : List (List ℕ)) → EndsAt P.definition Agrees told (P.plan_of arguments) (WorkAt (P.work_of work))
        → Ends P.definition (IsAnswer P.definition told (P.plan_of arguments)) (K.told out.old) (K.told out.new) result }
    ensures shelf { (told : Told) (arguments : List (List ℕ)) (faults faults_now absences absences_now : ℕ)
        → EndsAt P.definition Agrees told (P.plan_of arguments) (WorkAt (P.work_of work)) → faults_now ≡ faults → absences_now ≡ absences
        → CountsOnShelf P.definition told (P.plan_of arguments) (K.told out.old) (K.told out.new) result faults faults_now absences absences_now }
    ensures sink { (told : Told) (arguments : List (List ℕ)) → EndsAt P.definition Agrees told (P.plan_of arguments) (WorkAt (P.work_of work))
        → CountsOnSink P.definition result (K.faults out.old) (K.faults out.new) }
{
    settle::<P>(P::perform(alloc, work, out))
}

/// Runs a program over the arguments of a command line: all that they ask for is loaded from the shelf, then the work is done
/// into the sink, or one line says why it isn't.
pub fn run<P: Program, S: Shelf, K: Sink>(
    alloc: Global,
    arguments: &[String],
    shelf: &mut S,
    out: &mut K,
) -> P::Status
    ensures content { Ends P.definition (IsAnswer P.definition (S.told shelf.old) (P.plan_of (map string_bytes arguments.now)))
        (K.told out.old) (K.told out.new) result }
    ensures shelf { CountsOnShelf P.definition (S.told shelf.old) (P.plan_of (map string_bytes arguments.now)) (K.told out.old) (K.told out.new) result
        (S.faults shelf.old) (S.faults shelf.new) (S.absences shelf.old) (S.absences shelf.new) }
    ensures sink { CountsOnSink P.definition result (K.faults out.old) (K.faults out.new) }
{
    match load_or_say::<P, S, K>(alloc, arguments, shelf, out) {
        Ok(work) => do_work::<P, K>(alloc, work, out),
        Err(status) => status,
    }
}
