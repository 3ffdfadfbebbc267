//! Steps until a time is spent.

ghost use Rattle.std.specs.Prelude.{◌≡◌, ◌≢◌, ◌+◌, ◌≤◌, IsTrue, false, length};
ghost use Rattle.ags_ports.specs.declared.events.Phase.TheVariants.{Running};
ghost use Rattle.ags_ports.specs.declared.events.Event.TheVariants as event;
ghost use Rattle.ags_ports.specs.OrderTime.{order_time};
ghost use Rattle.ags_ports.specs.State.{IsState};
ghost use Rattle.ags_ports.specs.Step.{Steps};
ghost use Rattle.ags_timed.specs.Timed.{RunsFor, RunsSteps};
ghost use Rattle.ags_timed.specs.Limit.{cycle_micros};

use crate::watchers::Watcher;
use ags_core::Core;
use ags_isa::decode;
use ags_ports::laws::machine_is_made_of_tables;
use ags_ports::{Done, Event, Machine, Phase};

/// The time of one cycle of the timer, in microseconds. No run is asked for more.
pub const CYCLE_MICROS: u64 = 20_000;

/// Steps while orders run and the time of those that ran is less than this many microseconds, and answers that time. The
/// last order may pass the limit by up to 999 microseconds. A step that halts takes no time. The watcher is told of each
/// step (docs/MACHINE.md, Times).
pub fn run_for<W: Watcher>(core: &mut Core, machine: &Machine, micros: u64, watcher: &mut W) -> u64
    requires micros { micros ≤ cycle_micros }
    requires inputs { length core.old.inputs ≡ length machine.now.ports.inputs }
    requires outputs { length core.old.outputs ≡ length machine.now.ports.outputs }
    ensures run { RunsFor W.looks machine.now micros core.old watcher.old core.new watcher.new result }
    ensures most { result ≤ micros + 999 }
    ensures inputs { length core.new.inputs ≡ length core.old.inputs }
    ensures outputs { length core.new.outputs ≡ length core.old.outputs }
    ensures state { IsState machine.now core.old → IsState machine.now core.new }
{
    machine_is_made_of_tables(machine);
    let mut spent = 0;
    'steps: while spent < micros && is_running(core) {
        let report = seen_step(core, machine, watcher);
        spent += u64::from(order_time(machine, &report));
    }
    spent
}

/// Makes so many steps, whatever time they take and whether orders run or not. The watcher is told of each step.
pub fn run_steps<W: Watcher>(core: &mut Core, machine: &Machine, count: u32, watcher: &mut W)
    requires inputs { length core.old.inputs ≡ length machine.now.ports.inputs }
    requires outputs { length core.old.outputs ≡ length machine.now.ports.outputs }
    ensures run { RunsSteps W.looks machine.now count core.old watcher.old core.new watcher.new }
    ensures inputs { length core.new.inputs ≡ length core.old.inputs }
    ensures outputs { length core.new.outputs ≡ length core.old.outputs }
    ensures state { IsState machine.now core.old → IsState machine.now core.new }
{
    for _ in 0..count {
        seen_step(core, machine, watcher);
    }
}

/// One step, of which the watcher is told.
fn seen_step<W: Watcher>(core: &mut Core, machine: &Machine, watcher: &mut W) -> Done
    requires inputs { length core.old.inputs ≡ length machine.now.ports.inputs }
    requires outputs { length core.old.outputs ≡ length machine.now.ports.outputs }
    ensures step { Steps machine.now core.old event.Step result core.new }
    ensures look { W.looks watcher.old result watcher.new }
    ensures inputs { length core.new.inputs ≡ length core.old.inputs }
    ensures outputs { length core.new.outputs ≡ length core.old.outputs }
    ensures state { IsState machine.now core.old → IsState machine.now core.new }
{
    let report = core.act(machine, Event::Step);
    watcher.saw(&report);
    report
}

/// Whether orders run.
fn is_running(core: &Core) -> bool
    ensures running { IsTrue result → core.now.phase ≡ Running }
    ensures idle { result ≡ false → core.now.phase ≢ Running }
{
    match core.phase() {
        Phase::Running => true,
        Phase::Waiting | Phase::Halted => false,
    }
}

/// The order time of a report, in microseconds.
fn order_time(machine: &Machine, report: &Done) -> u32
    ensures time { result ≡ order_time machine.now report.now }
    ensures most { result ≤ 1000 }
{
    machine_is_made_of_tables(machine);
    if !report.ran {
        return 0;
    }
    match decode(&machine.codes, report.word) {
        Some(decoded) => machine.time_of(decoded.order),
        None => 0,
    }
}
