//! What the definition of the machine means. Each law is what a function that does nothing ensures, so that it is
//! proved with the crate. Behind each clause is a lemma of `proofs/`; those that the crates above cite are listed at the
//! heads of its files.

ghost use Rattle.std.specs.Prelude.{◌≡◌, ◌≢◌, ℕ, ◌/◌, ◌%◌, ◌^◌, ◌<◌, ◌≤◌, ◌⊎◌, ◌↔◌, Bool, true, false, All, List, length, slice_index_or, Some, None};
ghost use Rattle.ags_isa.specs.declared.orders.Order.{Order};
ghost use Rattle.ags_isa.specs.declared.orders.Order.TheVariants.{Add, Adz, Cla, Clz, Dly, Mpr, Mpz, Sub, Suz, Tov, Tra, Tsq};
ghost use Rattle.ags_isa.specs.Naming.{Names};
ghost use Rattle.ags_ports.specs.declared.events.Phase.TheVariants.{Running, Waiting, Halted};
ghost use Rattle.ags_ports.specs.declared.events.Event.{Event};
ghost use Rattle.ags_ports.specs.declared.events.Event.TheVariants.{Step, Pulse};
ghost use Rattle.ags_ports.specs.declared.events.Done.{Done};
ghost use Rattle.ags_ports.specs.declared.registers.Port.{Port};
ghost use Rattle.ags_ports.specs.Port.{AreRegisters, position_of};
ghost use Rattle.ags_ports.specs.Time.{AreTimes, time_of, standard_time, standard_times};
ghost use Rattle.ags_ports.specs.Machine.{IsMachine, standard_machine};
ghost use Rattle.ags_ports.specs.State.{State, IsState, cell, next_location, word_here};
ghost use Rattle.ags_ports.specs.Change.{cells_after_store, inputs_after_take, outputs_after_give};
ghost use Rattle.ags_ports.specs.Effect.{counts_index, effective, effect, then_clears};
ghost use Rattle.ags_ports.specs.Step.{IsEvent, Steps, Reads, NamesNone, ChangesInputsAlone, idle_report};
ghost use Rattle.ags_ports.specs.Run.{Moment, Run, AtEach};

use crate::machines::Machine;

/// The codes, times and registers of each machine that a program has are valid tables.
pub fn machine_is_made_of_tables(machine: &Machine)
    ensures { IsMachine machine.now }
{
    let _ = machine.codes.table();
    let _ = machine.times.table();
    let _ = machine.ports.inputs();
    let _ = machine.ports.outputs();
}

/// The standard machine's tables are valid.
pub fn standard_machine_is_a_machine()
    ensures { IsMachine standard_machine }
{}

/// The standard times are a table of times, which gives each order its time.
pub fn standard_times_are_those_of_the_orders()
    ensures table { AreTimes standard_times }
    ensures each { (order : Order) → time_of standard_times order ≡ standard_time order }
{}

/// Where the index bit is set and counts, the address that an order acts on has a bit exactly where its own address or
/// the index register has it; elsewhere it is its own address. It is an address of the memory.
pub fn index_adds_its_bits()
    ensures bits { (s : State) (order : Order) (y k : ℕ) → counts_index order ≡ true
        → (effective s order true y / 2 ^ k % 2 ≡ 1) ↔ ((y / 2 ^ k % 2 ≡ 1) ⊎ (s.index / 2 ^ k % 2 ≡ 1)) }
    ensures clear { (s : State) (order : Order) (y : ℕ) → effective s order false y ≡ y }
    ensures uncounted { (s : State) (order : Order) (indexed : Bool) (y : ℕ) → counts_index order ≡ false
        → effective s order indexed y ≡ y }
    ensures below { (machine : Machine) (s : State) (order : Order) (indexed : Bool) (y : ℕ) → IsState machine s
        → y < 4096 → effective s order indexed y < 4096 }
{}

/// From each state, each event tells one thing and leaves one state.
pub fn each_event_has_one_step()
    ensures some { (machine : Machine) (s : State) (event : Event)
        → (report : Done) × (after : State) × Steps machine s event report after }
    ensures one { (machine : Machine) (s : State) (event : Event) (report told : Done) (after left : State) → IsMachine machine
        → Steps machine s event report after → Steps machine s event told left → (report ≡ told) × (after ≡ left) }
{}

/// A step of a machine keeps each part of a state in its range, and how many registers and cells there are.
pub fn step_keeps_a_state()
    ensures { (machine : Machine) (s : State) (event : Event) (report : Done) (after : State) → IsMachine machine
        → IsState machine s → IsEvent event → Steps machine s event report after → IsState machine after }
{}

/// No event changes a fixed cell, one from 4000 octal on, and so no run of any length does.
pub fn fixed_cells_stay()
    ensures step { (machine : Machine) (s : State) (event : Event) (report : Done) (after : State) (address : ℕ)
        → 2048 ≤ address → Steps machine s event report after → cell after address ≡ cell s address }
    ensures run { (machine : Machine) (s : State) (events : List Event) (moments : List Moment) (address : ℕ)
        → 2048 ≤ address → Run machine s events moments → AtEach (λ moment. cell moment.after address ≡ cell s address) moments }
{}

/// Only a pulse ends waiting: any other event changes input registers at most, and a pulse sets the phase alone.
pub fn only_a_pulse_ends_waiting()
    ensures waits { (machine : Machine) (s : State) (event : Event) (report : Done) (after : State)
        → s.phase ≡ Waiting → event ≢ Pulse → Steps machine s event report after → ChangesInputsAlone s after }
    ensures wakes { (machine : Machine) (s : State) (report : Done) (after : State)
        → s.phase ≡ Waiting → Steps machine s Pulse report after → after ≡ record s { phase = Running } }
{}

/// Nothing leaves a halt: each event, and a run of any length, changes input registers at most and stays halted.
pub fn nothing_leaves_a_halt()
    ensures step { (machine : Machine) (s : State) (event : Event) (report : Done) (after : State)
        → s.phase ≡ Halted → Steps machine s event report after → ChangesInputsAlone s after }
    ensures run { (machine : Machine) (s : State) (events : List Event) (moments : List Moment)
        → s.phase ≡ Halted → Run machine s events moments → AtEach (λ moment. moment.after.phase ≡ Halted) moments }
    ensures run_alone { (machine : Machine) (s : State) (events : List Event) (moments : List Moment)
        → s.phase ≡ Halted → Run machine s events moments
        → AtEach (λ moment. ChangesInputsAlone s moment.after) moments }
{}

/// Waiting begins where a step runs DLY and nowhere else, and a halt where a step meets a word that is no order and
/// nowhere else; there it is all that changes.
pub fn only_dly_waits_and_only_no_order_halts()
    ensures waits { (machine : Machine) (s : State) (event : Event) (report : Done) (after : State)
        → Steps machine s event report after → s.phase ≢ Waiting → after.phase ≡ Waiting → (event ≡ Step) × Reads machine s Dly }
    ensures halts { (machine : Machine) (s : State) (event : Event) (report : Done) (after : State)
        → Steps machine s event report after → s.phase ≢ Halted → after.phase ≡ Halted
        → (event ≡ Step) × (s.phase ≡ Running) × NamesNone machine s }
    ensures alone { (machine : Machine) (s : State) (report : Done) (after : State)
        → s.phase ≡ Running → NamesNone machine s → Steps machine s Step report after
        → (report ≡ idle_report s) × (after ≡ record s { phase = Halted }) }
{}

/// A step that runs DLY leaves the machine waiting.
pub fn dly_leaves_the_machine_waiting()
    ensures { (machine : Machine) (s : State) (report : Done) (after : State) → IsMachine machine
        → Reads machine s Dly → Steps machine s Step report after → after.phase ≡ Waiting }
{}

/// What is told says what changed: of the cells the one of the store that is told, of the output registers the one that
/// a word is told to be given to, and by a step, of the input registers the one that a word is told to be taken from.
pub fn changes_are_told()
    ensures cells { (machine : Machine) (s : State) (event : Event) (report : Done) (after : State)
        → Steps machine s event report after → after.cells ≡ cells_after_store s.cells report.stored }
    ensures inputs { (machine : Machine) (s : State) (report : Done) (after : State)
        → Steps machine s Step report after → after.inputs ≡ inputs_after_take machine.ports.inputs s.inputs report.took }
    ensures outputs { (machine : Machine) (s : State) (event : Event) (report : Done) (after : State)
        → Steps machine s event report after → after.outputs ≡ outputs_after_give machine.ports.outputs s.outputs report.gave }
{}

/// An order is told to have run exactly where a step reads one; where none ran, nothing is told but the location and
/// its word, and these are told of every event, as they were before it.
pub fn order_that_is_read_runs()
    ensures only { (machine : Machine) (s : State) (event : Event) (report : Done) (after : State)
        → Steps machine s event report after → report.ran ≡ true → (event ≡ Step) × (order : Order) × Reads machine s order }
    ensures runs { (machine : Machine) (s : State) (order : Order) (report : Done) (after : State)
        → Reads machine s order → Steps machine s Step report after → report.ran ≡ true }
    ensures idle_report { (machine : Machine) (s : State) (event : Event) (report : Done) (after : State)
        → Steps machine s event report after → report.ran ≡ false → report ≡ idle_report s }
    ensures here { (machine : Machine) (s : State) (event : Event) (report : Done) (after : State)
        → Steps machine s event report after → (report.location ≡ s.location) × (report.word ≡ word_here s) }
{}

/// An order that overflows sets the indicator, nothing else does, and only a step that runs TOV clears it.
pub fn only_tov_clears_the_indicator()
    ensures sets { (machine : Machine) (s : State) (event : Event) (report : Done) (after : State)
        → Steps machine s event report after → report.overflow ≡ true → after.indicator ≡ true }
    ensures set_by { (machine : Machine) (s : State) (event : Event) (report : Done) (after : State)
        → Steps machine s event report after → s.indicator ≡ false → after.indicator ≡ true → report.overflow ≡ true }
    ensures clears { (machine : Machine) (s : State) (event : Event) (report : Done) (after : State)
        → Steps machine s event report after → s.indicator ≡ true → after.indicator ≡ false → (event ≡ Step) × Reads machine s Tov }
{}

/// A clearing order is its plain order, and then the cell is cleared.
pub fn clearing_order_is_plain_order_and_cleared_cell()
    ensures clz { (machine : Machine) (s : State) (e y : ℕ) → effect machine s Clz e y ≡ then_clears (effect machine s Cla e y) e }
    ensures adz { (machine : Machine) (s : State) (e y : ℕ) → effect machine s Adz e y ≡ then_clears (effect machine s Add e y) e }
    ensures suz { (machine : Machine) (s : State) (e y : ℕ) → effect machine s Suz e y ≡ then_clears (effect machine s Sub e y) e }
    ensures mpz { (machine : Machine) (s : State) (e y : ℕ) → effect machine s Mpz e y ≡ then_clears (effect machine s Mpr e y) e }
{}

/// TSQ leaves in Q an order that goes back: TRA, with the index bit clear, to the location after it.
pub fn tsq_leaves_an_order_that_goes_back()
    ensures { (machine : Machine) (s : State) (e y : ℕ)
        → Names machine.codes ((effect machine s Tsq e y).after.q) Tra false (next_location s) }
{}

/// What is found at an address is a register of that address, nothing is found only where there is none, and each
/// register of a table is found by its address.
pub fn registers_are_found_by_their_addresses()
    ensures found { (ports : List Port) (address position : ℕ) (d : Port) → position_of ports address ≡ Some position
        → (position < length ports) × ((slice_index_or ports position d).address ≡ address) }
    ensures absent { (ports : List Port) (address : ℕ) → position_of ports address ≡ None
        → All (λ port. port.address ≢ address) ports }
    ensures each { (ports : List Port) (position : ℕ) (d : Port) → AreRegisters ports → position < length ports
        → position_of ports ((slice_index_or ports position d).address) ≡ Some position }
{}
