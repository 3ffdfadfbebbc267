//! What a program is to the walk along its plans: how it loads what a command line asks for, and how it does it.

ghost use Rattle.std.specs.Prelude.{◌≡◌, ℕ, List, IfOk, map};
ghost use Rattle.std.specs.Result.{result_map_both};
ghost use Rattle.std.specs.String.{string_bytes};
ghost use Rattle.ags_outside.specs.Count.{HasCause};
ghost use Rattle.ags_outside.specs.Send.{is_write_fault};
ghost use Rattle.ags_plan.specs.Lawful.{IsLawful};
ghost use Rattle.ags_plan.specs.Loading.{Loads, end_of, is_absence, is_read_fault};
ghost use Rattle.ags_plan.specs.Plan.{Definition, Plan, WorkAt};
ghost use Rattle.ags_plan.specs.Saying.{Says};

use crate::causes::Stop;
use crate::unloaded::Unloaded;
use ags_outside::{SendError, Shelf, Sink};
use std::alloc::{AllocError, Global};

/// What loads the command lines of a program: what they ask for, how their files are loaded, and what is said where they aren't.
/// Whatever is done with what was loaded is no part of it, so that a program whose work takes more than a sink loads by it too.
pub trait Loader {
    /// How its runs end.
    type Status: Copy;

    /// Why it refuses a file.
    type Refusal: Drop;

    /// What is loaded for a command line, and then done.
    type Work: Drop;

    /// Its kinds of files, its works and its statuses.
    ghost definition: { Definition Self.Status };

    /// What a command line asks for, by its arguments.
    ghost plan_of: { List (List ℕ) → Plan definition };

    /// A work without where it lies in memory.
    ghost work_of: { Self.Work → definition.Work };

    /// What is so of a work that was loaded, beyond what its parts say.
    ghost ready: { Self.Work → Type 0 };

    /// The line of a refusal, with its line feed.
    ghost line_of: { Self.Refusal → List ℕ };

    /// The status of a refusal.
    ghost status_of: { Self.Refusal → Self.Status };

    /// The status of a stop.
    fn stop_status(stop: Stop) -> Self::Status
        ensures { result ≡ definition.status_of stop };

    /// The status of a refusal.
    fn refusal_status(refusal: &Self::Refusal) -> Self::Status
        ensures { result ≡ status_of refusal.now };

    /// The line of a refusal.
    fn refusal_line(alloc: Global, refusal: &Self::Refusal) -> Result<String, AllocError>
        ensures { IfOk result (λ line. string_bytes line ≡ line_of refusal.now) };

    /// Loads what a command line asks for, file by file: each is fetched and read before the next one is looked for.
    fn load<'a, S: Shelf>(
        alloc: Global,
        arguments: &'a [String],
        shelf: &mut S,
    ) -> Result<Self::Work, Unloaded<'a, Self::Refusal>>
        ensures loads { Loads definition (S.told shelf.old) (plan_of (map string_bytes arguments.now))
            (result_map_both work_of (end_of definition line_of status_of) result) }
        ensures made_ready { IfOk result ready }
        ensures faults { HasCause (S.faults shelf.old) (S.faults shelf.new) (is_read_fault result) }
        ensures absences { HasCause (S.absences shelf.old) (S.absences shelf.new) (is_absence result) };

    /// Its definition is lawful.
    ghost lawful: { IsLawful definition plan_of };
}

/// A program of commands, which does what it loaded into a sink and needs nothing else for it.
pub trait Program: Loader {
    /// Does a work that was loaded, which is its own from then on.
    fn perform<K: Sink>(
        alloc: Global,
        work: Self::Work,
        out: &mut K,
    ) -> Result<Self::Status, SendError>
        requires { Self.ready work }
        ensures performs { Says Self.definition (WorkAt (Self.work_of work)) (K.told out.old) (K.told out.new) result }
        ensures faults { HasCause (K.faults out.old) (K.faults out.new) (is_write_fault result) };
}
