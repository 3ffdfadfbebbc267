//! What plans come to, for every program. Each law is what a function that does nothing ensures, so that it is proved once,
//! from a program's `lawful` alone. Behind each clause is a lemma of `proofs/`.

ghost use Rattle.std.specs.Prelude.{◌≡◌, ◌↔◌, ℕ, List, Option, Result, Ok, Err};
ghost use Rattle.ags_plan.specs.Answer.{IsAnswer, TellsFiles};
ghost use Rattle.ags_plan.specs.Loading.{Loads, LoadsFile, TakesBytes};
ghost use Rattle.ags_plan.specs.Outcome.{AbsentExactly, Ends, EndsExactly, LongExactly, RefusedExactly, WorkExactly};
ghost use Rattle.ags_plan.specs.Plan.{End, Plan, Read, Take, WorkAt};
ghost use Rattle.ags_plan.specs.Walk.{Agrees, EndsAt, LeadsTo, Tells, Told};

use crate::program::Loader;

/// Whatever a shelf tells, each command line has an answer.
pub fn each_command_line_has_an_answer<P: Loader>()
    ensures { (told : Told) (arguments : List (List ℕ))
        → (text : List ℕ) × (status : P.Status) × IsAnswer P.definition told (P.plan_of arguments) text status }
{}

/// Where a shelf tells each file that is fetched, a command line has one answer.
pub fn command_lines_have_one_answer<P: Loader>()
    ensures { (told : Told) (arguments : List (List ℕ)) (text other : List ℕ) (status ended : P.Status)
        → TellsFiles P.definition told (P.plan_of arguments)
        → IsAnswer P.definition told (P.plan_of arguments) text status → IsAnswer P.definition told (P.plan_of arguments) other ended
        → (text ≡ other) × (status ≡ ended) }
{}

/// What a run's content says of each status: when it comes, and what was printed then.
pub fn content_decides<P: Loader>()
    ensures exactly { (told : Told) (arguments : List (List ℕ)) (old new : Option (List ℕ)) (result : P.Status)
        → Ends P.definition (IsAnswer P.definition told (P.plan_of arguments)) old new result → TellsFiles P.definition told (P.plan_of arguments)
        → (text : List ℕ) (status : P.Status) → IsAnswer P.definition told (P.plan_of arguments) text status
        → EndsExactly P.definition old new result text status }
    ensures absent { (told : Told) (arguments : List (List ℕ)) (old new : Option (List ℕ)) (result : P.Status)
        → Ends P.definition (IsAnswer P.definition told (P.plan_of arguments)) old new result
        → AbsentExactly P.definition told (P.plan_of arguments) old new result }
    ensures long { (told : Told) (arguments : List (List ℕ)) (old new : Option (List ℕ)) (result : P.Status)
        → Ends P.definition (IsAnswer P.definition told (P.plan_of arguments)) old new result
        → LongExactly P.definition told (P.plan_of arguments) old new result }
    ensures refused { (told : Told) (arguments : List (List ℕ)) (old new : Option (List ℕ)) (result : P.Status) (kind : P.definition.Kind)
        → Ends P.definition (IsAnswer P.definition told (P.plan_of arguments)) old new result
        → RefusedExactly P.definition told (P.plan_of arguments) old new result kind }
    ensures work { (told : Told) (arguments : List (List ℕ)) (old new : Option (List ℕ)) (result : P.Status)
        → Ends P.definition (IsAnswer P.definition told (P.plan_of arguments)) old new result
        → WorkExactly P.definition told (P.plan_of arguments) old new result }
{}

/// A plan is loaded file by file: where its first file isn't loaded, that is how the walk ends, and where it is, the rest of the
/// plan goes on from its value. The same holds of bytes that the program makes itself, which no shelf is asked for.
pub fn plans_are_loaded_file_by_file<P: Loader>()
    ensures stops { (told : Told) (kind : P.definition.Kind) (name : List ℕ) (next : P.definition.Value kind → Plan P.definition)
        (why : Option (End P.definition)) → LoadsFile P.definition told kind name (Err why) → Loads P.definition told (Read kind name next) (Err why) }
    ensures goes_on { (told : Told) (kind : P.definition.Kind) (name : List ℕ) (next : P.definition.Value kind → Plan P.definition)
        (value : P.definition.Value kind) (result : Result P.definition.Work (Option (End P.definition)))
        → LoadsFile P.definition told kind name (Ok value) → Loads P.definition told (next value) result
        → Loads P.definition told (Read kind name next) result }
    ensures own_stops { (told : Told) (kind : P.definition.Kind) (name bytes : List ℕ) (next : P.definition.Value kind → Plan P.definition)
        (why : Option (End P.definition)) → TakesBytes P.definition told kind name bytes (Err why)
        → Loads P.definition told (Take kind name bytes next) (Err why) }
    ensures own_goes_on { (told : Told) (kind : P.definition.Kind) (name bytes : List ℕ) (next : P.definition.Value kind → Plan P.definition)
        (value : P.definition.Value kind) (result : Result P.definition.Work (Option (End P.definition)))
        → TakesBytes P.definition told kind name bytes (Ok value) → Loads P.definition told (next value) result
        → Loads P.definition told (Take kind name bytes next) result }
{}

/// A walk ends in a work exactly where it comes past all files to it, over files that agree with what the shelf tells, and over
/// told files.
pub fn walks_lead_to_their_works<P: Loader>()
    ensures agrees { (told : Told) (plan : Plan P.definition) (work : P.definition.Work)
        → EndsAt P.definition Agrees told plan (WorkAt work) ↔ LeadsTo P.definition Agrees told plan work }
    ensures tells { (told : Told) (plan : Plan P.definition) (work : P.definition.Work)
        → EndsAt P.definition Tells told plan (WorkAt work) ↔ LeadsTo P.definition Tells told plan work }
{}
