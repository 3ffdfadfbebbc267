//! What the definition of a timed run means. Each law is what a function that does nothing ensures, so that it is proved with
//! the crate. Behind each clause is a lemma of `proofs/TimedLemmas`, which the crates above cite.

ghost use Rattle.std.specs.Prelude.{◌≡◌, ◌≢◌, ◌+◌, ◌≤◌, ℕ, List, [], length};
ghost use Rattle.ags_ports.specs.declared.events.Phase.TheVariants.{Running};
ghost use Rattle.ags_ports.specs.declared.machines.Machine.{Machine};
ghost use Rattle.ags_ports.specs.Machine.{IsMachine};
ghost use Rattle.ags_ports.specs.State.{State};
ghost use Rattle.ags_ports.specs.Run.{Moment};
ghost use Rattle.ags_timed.specs.Timed.{IsTimedRun};

/// From each state and for each limit there is exactly one timed run. A limit of 0, and a state in which no orders run, have
/// the run of no step.
pub fn each_state_has_one_timed_run()
    ensures some { (machine : Machine) (limit : ℕ) (s : State) → IsMachine machine
        → (moments : List Moment) × (spent : ℕ) × IsTimedRun machine limit s moments spent }
    ensures one { (machine : Machine) (limit : ℕ) (s : State) (moments others : List Moment) (spent other : ℕ) → IsMachine machine
        → IsTimedRun machine limit s moments spent → IsTimedRun machine limit s others other → moments ≡ others }
    ensures time { (machine : Machine) (limit : ℕ) (s : State) (moments others : List Moment) (spent other : ℕ) → IsMachine machine
        → IsTimedRun machine limit s moments spent → IsTimedRun machine limit s others other → spent ≡ other }
    ensures none { (machine : Machine) (s : State) → IsTimedRun machine 0 s [] 0 }
    ensures idle { (machine : Machine) (limit : ℕ) (s : State) → s.phase ≢ Running → IsTimedRun machine limit s [] 0 }
    ensures most { (machine : Machine) (limit : ℕ) (s : State) (moments : List Moment) (spent : ℕ) → IsMachine machine
        → IsTimedRun machine limit s moments spent → spent ≤ limit + 999 }
    // No run has more steps than microseconds: each order takes one at least, and a step that runs none is the last.
    ensures few { (machine : Machine) (limit : ℕ) (s : State) (moments : List Moment) (spent : ℕ) → IsMachine machine
        → IsTimedRun machine limit s moments spent → length moments ≤ limit }
{}
