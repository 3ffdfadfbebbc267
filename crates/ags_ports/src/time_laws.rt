//! What the time of a step means. Each law is what a function that does nothing ensures, so that it is proved with the
//! crate. Behind each clause is a lemma of `proofs/OrderTimeLemmas`, which the crates above cite.

ghost use Rattle.std.specs.Prelude.{◌≡◌, ◌≢◌, ℕ, ◌≤◌, Bool, true, false};
ghost use Rattle.ags_isa.specs.declared.orders.Order.{Order};
ghost use Rattle.ags_isa.specs.Naming.{Names};
ghost use Rattle.ags_ports.specs.declared.events.Phase.TheVariants.{Halted};
ghost use Rattle.ags_ports.specs.declared.events.Event.{Event};
ghost use Rattle.ags_ports.specs.declared.events.Event.TheVariants.{Step};
ghost use Rattle.ags_ports.specs.declared.events.Done.{Done};
ghost use Rattle.ags_ports.specs.declared.machines.Machine.{Machine};
ghost use Rattle.ags_ports.specs.Time.{time_of};
ghost use Rattle.ags_ports.specs.Machine.{IsMachine};
ghost use Rattle.ags_ports.specs.State.{State};
ghost use Rattle.ags_ports.specs.Step.{Steps, Reads};
ghost use Rattle.ags_ports.specs.OrderTime.{order_time};

/// The order time of a report is that of the order that its word names, which is one order, and 0 where none ran. It is at
/// most 1000 microseconds.
pub fn order_time_is_that_of_the_named_order()
    ensures named { (machine : Machine) (report : Done) (order : Order) (indexed : Bool) (address : ℕ) → IsMachine machine
        → report.ran ≡ true → Names machine.codes report.word order indexed address
        → order_time machine report ≡ time_of machine.times order }
    ensures idle { (machine : Machine) (report : Done) → report.ran ≡ false → order_time machine report ≡ 0 }
    ensures most { (machine : Machine) (report : Done) → IsMachine machine → order_time machine report ≤ 1000 }
{}

/// A step takes the time of the order that it reads, which is at least one microsecond. An event at which no order is
/// read takes none: one that is no step, and a step that halts, or comes in another phase.
pub fn step_takes_the_time_of_its_order()
    ensures order { (machine : Machine) (s : State) (order : Order) (report : Done) (after : State) → IsMachine machine
        → Reads machine s order → Steps machine s Step report after
        → order_time machine report ≡ time_of machine.times order }
    ensures least { (machine : Machine) (s : State) (event : Event) (report : Done) (after : State) → IsMachine machine
        → Steps machine s event report after → report.ran ≡ true → 1 ≤ order_time machine report }
    ensures other { (machine : Machine) (s : State) (event : Event) (report : Done) (after : State)
        → Steps machine s event report after → event ≢ Step → order_time machine report ≡ 0 }
    ensures unread { (machine : Machine) (s : State) (event : Event) (report : Done) (after : State)
        → Steps machine s event report after → ((order : Order) → ¬ Reads machine s order) → order_time machine report ≡ 0 }
    ensures halts { (machine : Machine) (s : State) (event : Event) (report : Done) (after : State)
        → Steps machine s event report after → after.phase ≡ Halted → order_time machine report ≡ 0 }
{}
