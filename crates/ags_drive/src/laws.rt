//! What the definition of a bench run means. Each law is what a function that does nothing ensures, so that it is proved with the
//! crate. Behind each clause is a lemma of `proofs/`, which the crates above cite.

ghost use Rattle.std.specs.Prelude.{◌≡◌, ℕ, ◌<◌, ◌≤◌, List, [], ◌++◌, Option, None, count_by, length};
ghost use Rattle.ags_benchscript.specs.Script.{steps_of};
ghost use Rattle.ags_benchscript.specs.declared.commands.BenchCommand.{BenchCommand};
ghost use Rattle.ags_device.specs.Record.{DeviceRecord};
ghost use Rattle.ags_domain.specs.Value.{value_meaning};
ghost use Rattle.ags_domain.specs.declared.values.Value.{Value};
ghost use Rattle.ags_image.specs.Image.{IsImage};
ghost use Rattle.ags_outside.specs.Sink.{appended, WroteFront};
ghost use Rattle.ags_play.specs.Begun.{IsRunOf};
ghost use Rattle.ags_play.specs.Counted.{is_step, is_put};
ghost use Rattle.ags_play.specs.Guard.{Outside, IsFirstOutside};
ghost use Rattle.ags_ports.specs.declared.events.Event.{Event};
ghost use Rattle.ags_ports.specs.declared.machines.Machine.{Machine};
ghost use Rattle.ags_ports.specs.Machine.{IsMachine};
ghost use Rattle.ags_ports.specs.Run.{Moment, Run, RunsTo, AreEvents, AtEachStep};
ghost use Rattle.ags_safe.specs.Certificate.{Certificate};
ghost use Rattle.ags_safe.specs.Safe.{IsSafeStep, Safe};
ghost use Rattle.ags_safe.specs.Start.{AreDeclared};
ghost use Rattle.ags_drive.specs.Act.{Act, acts_of_script};
ghost use Rattle.ags_drive.specs.Bench.{Bench, start_bench};
ghost use Rattle.ags_drive.specs.BenchRun.{Met, OutsideStart, RunsOn, IsBenchRun, IsPointOfRun, IsFrontOfRun};
ghost use Rattle.ags_drive.specs.Counted.{puts_of};
ghost use Rattle.ags_drive.specs.Cut.{IsRunWhereCut, IsSafeWhereCut};
ghost use Rattle.ags_drive.specs.Driven.{WroteFrontOfRun};
ghost use Rattle.ags_drive.specs.Played.{Plays, IsPoint, next_text};

/// The events of acts that are played are one run, from the state of the bench that they begin on to that of the bench that they
/// leave, and the certificate declares each word that they put.
pub fn events_of_acts_are_one_declared_run()
    ensures run { (machine : Machine) (cert : Certificate Value) (b here : Bench) (acts : List Act) (events : List Event) (text : List ℕ)
        → Plays machine cert b acts events text here → RunsTo machine b.core events here.core }
    ensures declared { (machine : Machine) (cert : Certificate Value) (b here : Bench) (acts : List Act) (events : List Event) (text : List ℕ)
        → Plays machine cert b acts events text here → AreDeclared value_meaning machine cert events }
{}

/// From each bench the acts have one run: one list of events, one text, one list of devices where it stops, and one answer to what it
/// meets.
pub fn acts_have_one_run()
    ensures some { (machine : Machine) (cert : Certificate Value) (b : Bench) (acts : List Act) → IsMachine machine
        → (events : List Event) × (text : List ℕ) × (now : List DeviceRecord) × (met : Met) × RunsOn machine cert b acts events text now met }
    ensures one { (machine : Machine) (cert : Certificate Value) (b : Bench) (acts : List Act) (events others : List Event) (text other : List ℕ)
        (now then : List DeviceRecord) (met unmet : Met) → IsMachine machine → RunsOn machine cert b acts events text now met
        → RunsOn machine cert b acts others other then unmet
        → (events ≡ others) × (text ≡ other) × (now ≡ then) × (met ≡ unmet) }
{}

/// Each script has one run over each image, under each certificate and with each list of devices.
pub fn each_script_has_one_bench_run()
    ensures some { (machine : Machine) (image : List (Option ℕ)) (cert : Certificate Value) (devices : List DeviceRecord)
        (lines : List (ℕ × BenchCommand)) → IsMachine machine
        → (events : List Event) × (text : List ℕ) × (now : List DeviceRecord) × (met : Met)
        × IsBenchRun machine image cert devices lines events text now met }
    ensures one { (machine : Machine) (image : List (Option ℕ)) (cert : Certificate Value) (devices : List DeviceRecord)
        (lines : List (ℕ × BenchCommand)) (events others : List Event) (text other : List ℕ) (now then : List DeviceRecord)
        (met unmet : Met) → IsMachine machine → IsBenchRun machine image cert devices lines events text now met
        → IsBenchRun machine image cert devices lines others other then unmet
        → (events ≡ others) × (text ≡ other) × (now ≡ then) × (met ≡ unmet) }
{}

/// A bench run whose words are words and that meets no start outside is a run from a start of its certificate, with each word that is
/// put declared; so it is up to each point. One that meets a start outside has no event and no text, and leaves the devices as they
/// were handed in.
pub fn bench_run_is_a_run_of_its_certificate()
    ensures run { (machine : Machine) (image : List (Option ℕ)) (cert : Certificate Value) (devices : List DeviceRecord)
        (lines : List (ℕ × BenchCommand)) (events : List Event) (text : List ℕ) (now : List DeviceRecord) (met : Met) → IsImage image
        → cert.start < 4096 → AreEvents events → IsBenchRun machine image cert devices lines events text now met
        → ((outside : Outside) → met ≡ OutsideStart outside → ⊥)
        → IsRunOf machine image cert (start_bench machine image cert devices).core events }
    ensures cuts { (machine : Machine) (image : List (Option ℕ)) (cert : Certificate Value) (devices : List DeviceRecord)
        (acts : List Act) → IsImage image → cert.start < 4096
        → IsFirstOutside machine image cert (start_bench machine image cert devices).core None
        → IsRunWhereCut machine image cert (start_bench machine image cert devices) acts }
    ensures none { (machine : Machine) (image : List (Option ℕ)) (cert : Certificate Value) (devices : List DeviceRecord)
        (lines : List (ℕ × BenchCommand)) (events : List Event) (text : List ℕ) (now : List DeviceRecord) (outside : Outside)
        → IsBenchRun machine image cert devices lines events text now (OutsideStart outside)
        → (events ≡ []) × (text ≡ []) × (now ≡ devices) }
{}

/// Where a certificate is safe, each step of a bench run under it that meets no start outside is safe, and at each point the state is
/// a safe one: so is each state that it shows.
pub fn bench_run_is_safe()
    ensures steps { (machine : Machine) (image : List (Option ℕ)) (cert : Certificate Value) (devices : List DeviceRecord)
        (lines : List (ℕ × BenchCommand)) (events : List Event) (text : List ℕ) (now : List DeviceRecord) (met : Met)
        (moments : List Moment) → IsImage image → cert.start < 4096 → AreEvents events
        → IsBenchRun machine image cert devices lines events text now met
        → ((outside : Outside) → met ≡ OutsideStart outside → ⊥) → Safe value_meaning machine image cert
        → Run machine (start_bench machine image cert devices).core events moments
        → AtEachStep (IsSafeStep value_meaning machine image cert) (start_bench machine image cert devices).core events moments }
    ensures cuts { (machine : Machine) (image : List (Option ℕ)) (cert : Certificate Value) (devices : List DeviceRecord)
        (acts : List Act) → IsImage image → cert.start < 4096
        → IsFirstOutside machine image cert (start_bench machine image cert devices).core None
        → Safe value_meaning machine image cert → IsSafeWhereCut machine image cert (start_bench machine image cert devices) acts }
{}

/// Acts after others go on from the bench that those leave.
pub fn acts_follow_one_another()
    ensures { (machine : Machine) (cert : Certificate Value) (b mid here : Bench) (first second : List Act)
        (events later : List Event) (text rest : List ℕ) → Plays machine cert b first events text mid
        → Plays machine cert mid second later rest here
        → Plays machine cert b (first ++ second) (events ++ later) (text ++ rest) here }
{}

/// Each point of a script's run lies on it: the events and the text up to there, and what the next act prints, are the first ones of the
/// run. So a sink that took the text up to a point, and a front of what the next act prints, took a front of the run's text.
pub fn points_lie_on_the_run()
    ensures front { (machine : Machine) (image : List (Option ℕ)) (cert : Certificate Value) (devices : List DeviceRecord)
        (lines : List (ℕ × BenchCommand)) (events : List Event) (text : List ℕ) (here : Bench) (done rest : List Act)
        → IsMachine machine → IsPointOfRun machine image cert devices lines events text here done rest
        → IsFrontOfRun machine image cert devices lines events (text ++ next_text machine here rest) }
    ensures sent { (machine : Machine) (image : List (Option ℕ)) (cert : Certificate Value) (devices : List DeviceRecord)
        (lines : List (ℕ × BenchCommand)) (events : List Event) (text : List ℕ) (here : Bench) (done rest : List Act)
        (old new : Option (List ℕ)) → IsMachine machine → IsPointOfRun machine image cert devices lines events text here done rest
        → WroteFront (appended old text) new (next_text machine here rest)
        → WroteFrontOfRun machine image cert devices lines old new }
{}

/// At each point there are no more steps than the script's lines count for, and no more words were put than they may put.
pub fn events_are_counted_for()
    ensures steps { (machine : Machine) (cert : Certificate Value) (b here : Bench) (positions : ℕ) (lines : List (ℕ × BenchCommand))
        (done rest : List Act) (events : List Event) (text : List ℕ) → IsMachine machine
        → IsPoint machine cert b (acts_of_script positions lines) events text here done rest
        → count_by is_step events ≤ steps_of lines }
    ensures puts { (machine : Machine) (cert : Certificate Value) (b here : Bench) (positions : ℕ) (lines : List (ℕ × BenchCommand))
        (done rest : List Act) (events : List Event) (text : List ℕ)
        → IsPoint machine cert b (acts_of_script positions lines) events text here done rest
        → count_by is_put events ≤ puts_of positions lines }
{}
