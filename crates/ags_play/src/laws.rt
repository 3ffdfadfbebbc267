//! What the definition of a play means. Each law is what a function that does nothing ensures, so that it is proved with the
//! crate. Behind each clause is a lemma of `proofs/`, which the crates above cite.

ghost use Rattle.std.specs.Prelude.{◌≡◌, ℕ, ◌+◌, ◌<◌, ◌≤◌, List, [], ◌++◌, length, Option, Some, None, count_by, sum_by};
ghost use Rattle.ags_domain.specs.Value.{value_meaning};
ghost use Rattle.ags_domain.specs.declared.values.Value.{Value};
ghost use Rattle.ags_image.specs.Image.{IsImage};
ghost use Rattle.ags_ports.specs.declared.events.Event.{Event};
ghost use Rattle.ags_ports.specs.declared.machines.Machine.{Machine};
ghost use Rattle.ags_ports.specs.Machine.{IsMachine};
ghost use Rattle.ags_ports.specs.Run.{Moment, Run, RunsTo, AtEachStep};
ghost use Rattle.ags_safe.specs.Certificate.{Certificate};
ghost use Rattle.ags_safe.specs.Safe.{IsSafeState, IsSafeStep, Safe};
ghost use Rattle.ags_safe.specs.Start.{AreDeclared};
ghost use Rattle.ags_script.specs.declared.commands.Command.{Command};
ghost use Rattle.ags_script.specs.Command.{step_count};
ghost use Rattle.ags_play.specs.Act.{Act, acts_of};
ghost use Rattle.ags_play.specs.Bench.{Bench, begun_state};
ghost use Rattle.ags_play.specs.Doing.{PutWord};
ghost use Rattle.ags_play.specs.Guard.{Outside};
ghost use Rattle.ags_play.specs.Played.{Plays, Met, Nothing, OutsideStart, IsPlayOf};
ghost use Rattle.ags_play.specs.Begun.{AreSettable, IsRunOf};
ghost use Rattle.ags_play.specs.Counted.{is_step, is_put};
ghost use Rattle.ags_play.specs.Cut.{IsSafeWhereCut, PlaysInTurn};

/// The events of a play are one run, from the state of the bench that it begins on to that of the bench that it leaves.
pub fn events_of_a_play_are_one_run()
    ensures { (machine : Machine) (guard : Option (Certificate Value)) (b : Bench) (acts : List Act) (events : List Event)
        (text : List ℕ) (after : Bench) (met : Option PutWord) → Plays machine guard b acts events text after met
        → RunsTo machine b.core events after.core }
{}

/// Under a certificate each word that a play puts is declared. A play that meets no start outside is a run from a start of the
/// certificate; one that does has no event and no text.
pub fn guarded_play_is_a_run_of_its_certificate()
    ensures declared { (machine : Machine) (cert : Certificate Value) (b : Bench) (acts : List Act) (events : List Event)
        (text : List ℕ) (after : Bench) (met : Option PutWord) → Plays machine (Some cert) b acts events text after met
        → AreDeclared value_meaning machine cert events }
    ensures run { (machine : Machine) (image : List (Option ℕ)) (cert : Certificate Value) (commands : List Command)
        (events : List Event) (text : List ℕ) (met : Met) → IsImage image → cert.start < 4096 → AreSettable commands
        → IsPlayOf machine image (Some cert) commands events text met → ((outside : Outside) → met ≡ OutsideStart outside → ⊥)
        → IsRunOf machine image cert (begun_state machine image (Some cert) commands) events }
    ensures none { (machine : Machine) (image : List (Option ℕ)) (cert : Certificate Value) (commands : List Command)
        (events : List Event) (text : List ℕ) (outside : Outside)
        → IsPlayOf machine image (Some cert) commands events text (OutsideStart outside) → (events ≡ []) × (text ≡ []) }
{}

/// Where a certificate is safe, a play under it that meets no start outside begins in a safe state, each step of the run of its
/// events is safe, and wherever the play is cut the state is a safe one: so is each state that it shows.
pub fn guarded_play_is_safe()
    ensures start { (machine : Machine) (image : List (Option ℕ)) (cert : Certificate Value) (commands : List Command)
        (events : List Event) (text : List ℕ) (met : Met) → IsImage image → cert.start < 4096 → AreSettable commands
        → IsPlayOf machine image (Some cert) commands events text met → ((outside : Outside) → met ≡ OutsideStart outside → ⊥)
        → Safe value_meaning machine image cert
        → IsSafeState value_meaning machine image cert (begun_state machine image (Some cert) commands) }
    ensures steps { (machine : Machine) (image : List (Option ℕ)) (cert : Certificate Value) (commands : List Command)
        (events : List Event) (text : List ℕ) (met : Met) (moments : List Moment) → IsImage image → cert.start < 4096
        → AreSettable commands → IsPlayOf machine image (Some cert) commands events text met
        → ((outside : Outside) → met ≡ OutsideStart outside → ⊥) → Safe value_meaning machine image cert
        → Run machine (begun_state machine image (Some cert) commands) events moments
        → AtEachStep (IsSafeStep value_meaning machine image cert) (begun_state machine image (Some cert) commands) events moments }
    ensures cuts { (machine : Machine) (image : List (Option ℕ)) (cert : Certificate Value) (commands : List Command)
        (events : List Event) (text : List ℕ) (met : Met) → IsImage image → cert.start < 4096 → AreSettable commands
        → IsPlayOf machine image (Some cert) commands events text met → ((outside : Outside) → met ≡ OutsideStart outside → ⊥)
        → Safe value_meaning machine image cert → IsSafeWhereCut machine image cert commands }
{}

/// From each bench the acts have one play: one list of events, one text, one bench that is left and one answer to what was met.
pub fn acts_have_one_play()
    ensures some { (machine : Machine) (guard : Option (Certificate Value)) (b : Bench) (acts : List Act) → IsMachine machine
        → (events : List Event) × (text : List ℕ) × (after : Bench) × (met : Option PutWord)
        × Plays machine guard b acts events text after met }
    ensures one { (machine : Machine) (guard : Option (Certificate Value)) (b : Bench) (acts : List Act)
        (events others : List Event) (text other : List ℕ) (after left : Bench) (met stopped : Option PutWord) → IsMachine machine
        → Plays machine guard b acts events text after met → Plays machine guard b acts others other left stopped
        → (events ≡ others) × (text ≡ other) × (after ≡ left) × (met ≡ stopped) }
{}

/// Each script has one play over each image, under one certificate or none: one list of events, one text, and one answer to what it
/// meets.
pub fn each_script_has_one_play()
    ensures some { (machine : Machine) (image : List (Option ℕ)) (guard : Option (Certificate Value)) (commands : List Command)
        → IsMachine machine
        → (events : List Event) × (text : List ℕ) × (met : Met) × IsPlayOf machine image guard commands events text met }
    ensures one { (machine : Machine) (image : List (Option ℕ)) (guard : Option (Certificate Value)) (commands : List Command)
        (events others : List Event) (text other : List ℕ) (met unmet : Met) → IsMachine machine
        → IsPlayOf machine image guard commands events text met → IsPlayOf machine image guard commands others other unmet
        → (events ≡ others) × (text ≡ other) × (met ≡ unmet) }
{}

/// Wherever a play is cut, what stands before the cut is a play whose events are one run from the first state, and what stands
/// after it is played on the bench that the first part leaves, which is where this run ends. So each state that is shown is one
/// that the run of all events has come to, and what comes later doesn't change it.
pub fn what_is_shown_lies_on_one_run()
    ensures split { (machine : Machine) (guard : Option (Certificate Value)) (b : Bench) (first second : List Act)
        (events : List Event) (text : List ℕ) (after : Bench) (met : Option PutWord)
        → Plays machine guard b (first ++ second) events text after met
        → PlaysInTurn machine guard b first second events text after met }
    // A run of all the events begins with that run.
    ensures along { (machine : Machine) (guard : Option (Certificate Value)) (b : Bench) (first second : List Act)
        (events : List Event) (text : List ℕ) (after : Bench) (met : Option PutWord) (all : List Moment) → IsMachine machine
        → Plays machine guard b (first ++ second) events text after met → Run machine b.core events all
        → (cut : PlaysInTurn machine guard b first second events text after met) × (further : List Moment)
        × (all ≡ cut.moments ++ further) }
{}

/// Acts after others go on from the bench that those leave, where none of their words was stopped; where one was, they are not
/// played.
pub fn plays_follow_one_another()
    ensures on { (machine : Machine) (guard : Option (Certificate Value)) (b mid after : Bench) (first second : List Act)
        (events later : List Event) (text rest : List ℕ) (met : Option PutWord)
        → Plays machine guard b first events text mid None → Plays machine guard mid second later rest after met
        → Plays machine guard b (first ++ second) (events ++ later) (text ++ rest) after met }
    ensures stop { (machine : Machine) (guard : Option (Certificate Value)) (b after : Bench) (first second : List Act)
        (events : List Event) (text : List ℕ) (put : PutWord) → Plays machine guard b first events text after (Some put)
        → Plays machine guard b (first ++ second) events text after (Some put) }
{}

/// A play makes no more steps than its commands count for. A command puts one word at most, and a line of cycles one in each, for
/// which it counts for steps too; so a play puts no more words than its commands and their steps together.
pub fn events_are_counted_for()
    ensures steps { (machine : Machine) (guard : Option (Certificate Value)) (b after : Bench) (commands : List Command)
        (events : List Event) (text : List ℕ) (met : Option PutWord) → IsMachine machine
        → Plays machine guard b (acts_of commands) events text after met
        → count_by is_step events ≤ sum_by step_count commands }
    ensures puts { (machine : Machine) (guard : Option (Certificate Value)) (b after : Bench) (commands : List Command)
        (events : List Event) (text : List ℕ) (met : Option PutWord)
        → Plays machine guard b (acts_of commands) events text after met
        → count_by is_put events ≤ length commands + sum_by step_count commands }
{}

/// Without a certificate a play meets nothing: no start is outside, and no word is stopped.
pub fn unguarded_play_meets_nothing()
    ensures { (machine : Machine) (image : List (Option ℕ)) (commands : List Command) (events : List Event) (text : List ℕ)
        (met : Met) → IsPlayOf machine image None commands events text met → met ≡ Nothing }
{}
