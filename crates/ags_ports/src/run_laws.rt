//! What runs of the machine mean. Each law is what a function that does nothing ensures, so that it is proved with the
//! crate. Behind each clause is a lemma of `proofs/RunLemmas`, which the crates above cite.

ghost use Rattle.std.specs.Prelude.{◌≡◌, ◌↔◌, List, [], ◌∷◌, ◌++◌};
ghost use Rattle.ags_ports.specs.declared.events.Event.{Event};
ghost use Rattle.ags_ports.specs.declared.events.Done.{Done};
ghost use Rattle.ags_ports.specs.declared.machines.Machine.{Machine};
ghost use Rattle.ags_ports.specs.Machine.{IsMachine};
ghost use Rattle.ags_ports.specs.State.{State, IsState};
ghost use Rattle.ags_ports.specs.Step.{IsEvent, Steps};
ghost use Rattle.ags_ports.specs.Run.{Moment, Run, RunsTo, RunsInTurn, AtEach, AtEachStep, AreEvents, last_state};

/// A fact about one step of a run: about the state before it, its event, and what comes of that. A law over all such facts
/// is one over all types that name one.
pub trait StepFact {
    ghost holds: { State → Event → Moment → Type 0 };
}

/// From each state, each list of events has one run, and it keeps a state.
pub fn each_list_of_events_has_one_run()
    ensures some { (machine : Machine) (s : State) (events : List Event) → (moments : List Moment) × Run machine s events moments }
    ensures one { (machine : Machine) (s : State) (events : List Event) (moments others : List Moment) → IsMachine machine
        → Run machine s events moments → Run machine s events others → moments ≡ others }
    ensures keeps { (machine : Machine) (s : State) (events : List Event) (moments : List Moment) → IsMachine machine
        → IsState machine s → AreEvents events → Run machine s events moments
        → AtEach (λ moment. IsState machine moment.after) moments }
{}

/// Two runs of which the second begins where the first ends make one run, and it ends where the second does.
pub fn runs_join()
    ensures run { (machine : Machine) (s : State) (first second : List Event) (moments others : List Moment)
        → Run machine s first moments → Run machine (last_state s moments) second others
        → Run machine s (first ++ second) (moments ++ others) }
    ensures last { (s : State) (moments others : List Moment)
        → last_state s (moments ++ others) ≡ last_state (last_state s moments) others }
{}

/// A run over one list of events and then another is a run over the one, and then one over the other.
pub fn runs_split()
    ensures { (machine : Machine) (s : State) (first second : List Event) (moments : List Moment)
        → Run machine s (first ++ second) moments → RunsInTurn machine s first second moments }
{}

/// From each state, each list of events leads to one state: none to the state itself, one event to the state that its step
/// leaves, and one list and then another by way of the state that the first leads to.
pub fn events_lead_to_one_state()
    ensures some { (machine : Machine) (s : State) (events : List Event) → (after : State) × RunsTo machine s events after }
    ensures one { (machine : Machine) (s : State) (events : List Event) (after left : State) → IsMachine machine
        → RunsTo machine s events after → RunsTo machine s events left → after ≡ left }
    ensures none { (machine : Machine) (s : State) → RunsTo machine s [] s }
    ensures step { (machine : Machine) (s : State) (event : Event) (report : Done) (after : State)
        → Steps machine s event report after → RunsTo machine s (event ∷ []) after }
    ensures join { (machine : Machine) (s mid after : State) (first second : List Event)
        → RunsTo machine s first mid → RunsTo machine mid second after → RunsTo machine s (first ++ second) after }
    ensures split { (machine : Machine) (s after : State) (first second : List Event)
        → RunsTo machine s (first ++ second) after
        → (mid : State) × RunsTo machine s first mid × RunsTo machine mid second after }
{}

/// A run is a step at each of its events, each from the state that the one before left. So what holds of every step of the
/// machine holds at each step of every run, and what holds of every step from a state, at each step of a run from one.
pub fn run_is_a_step_at_each_event<F: StepFact>()
    ensures steps { (machine : Machine) (s : State) (events : List Event) (moments : List Moment)
        → Run machine s events moments
        ↔ AtEachStep (λ before event moment. Steps machine before event moment.report moment.after) s events moments }
    ensures along { (machine : Machine) (s : State) (events : List Event) (moments : List Moment)
        → ((before : State) (event : Event) (moment : Moment) → Steps machine before event moment.report moment.after
        → F.holds before event moment)
        → Run machine s events moments → AtEachStep F.holds s events moments }
    ensures kept { (machine : Machine) (s : State) (events : List Event) (moments : List Moment) → IsMachine machine
        → IsState machine s → AreEvents events
        → ((before : State) (event : Event) (moment : Moment) → IsState machine before → IsEvent event
        → Steps machine before event moment.report moment.after → F.holds before event moment)
        → Run machine s events moments → AtEachStep F.holds s events moments }
{}

/// What holds at each step of a run holds at each step of its first part, over the first events, and at each step after it;
/// and what holds in both parts holds at each step of the run.
pub fn steps_of_a_run_are_those_of_its_parts<F: StepFact>()
    ensures front { (machine : Machine) (s : State) (first second : List Event) (moments others : List Moment)
        → Run machine s first moments → AtEachStep F.holds s (first ++ second) (moments ++ others)
        → AtEachStep F.holds s first moments }
    ensures behind { (machine : Machine) (s : State) (first second : List Event) (moments others : List Moment)
        → Run machine s first moments → AtEachStep F.holds s (first ++ second) (moments ++ others)
        → AtEachStep F.holds (last_state s moments) second others }
    ensures both { (s : State) (first second : List Event) (moments others : List Moment)
        → AtEachStep F.holds s first moments → AtEachStep F.holds (last_state s moments) second others
        → AtEachStep F.holds s (first ++ second) (moments ++ others) }
{}
