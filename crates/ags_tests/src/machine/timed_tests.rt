//! Rows worked by hand: TRA takes 10 microseconds on the standard machine.

ghost use Rattle.ags_ports.specs.State.{IsState};

use crate::command_lines::expect_same;
use crate::machine::common::word;
use ags_core::Core;
use ags_image::Image;
use ags_ports::{Done, Machine, Phase};
use ags_timed::{Watcher, run_for};
use std::alloc::Global;
use std::process::Abort;

/// Where each row begins, 4000 octal.
const START: u16 = 2048;

/// A watcher that counts the steps, and keeps where the last one was and the order times of none.
#[derive(Drop)]
struct Counter {
    steps: u32,
    ran: u32,
    last: u16,
}

impl Watcher for Counter {
    ghost use Rattle.std.specs.Prelude.{⊤};

    ghost looks = { λ _ _ _. ⊤ };

    fn saw(&mut self, report: &Done) {
        self.steps = self.steps.wrapping_add(1);
        if report.ran {
            self.ran = self.ran.wrapping_add(1);
        }
        self.last = report.location;
    }
}

/// A word, microseconds, and then the steps, how many ran an order, the answer, the phase and the location.
type Timed = (u32, u64, u32, u32, u64, Phase, u16);

/// Runs from a core with just this word, at 4000 octal.
const TIMED: [Timed; 8] = [
    (0o404000, 25, 3, 3, 30, Phase::Running, START),
    (0o404000, 30, 3, 3, 30, Phase::Running, START),
    (0o404000, 31, 4, 4, 40, Phase::Running, START),
    (0o404000, 0, 0, 0, 0, Phase::Running, START),
    (0o404000, 20_000, 2000, 2000, 20_000, Phase::Running, START),
    (0o000000, 25, 1, 0, 0, Phase::Halted, START),
    (0o704001, 25, 1, 1, 10, Phase::Waiting, START + 1),
    (0o724000, 17, 2, 2, 32, Phase::Running, START),
];

/// A core with a word at the start, and nothing else.
fn started(rt: &impl Abort, alloc: Global, machine: &Machine, number: u32) -> Core
    ensures { IsState machine.now result }
{
    let mut image = Image::new(alloc).expect(rt, "memory for an image");
    image.set(START, word(rt, number));
    Core::new(alloc, machine, &image, START).expect(rt, "memory for a core")
}

/// Runs from a core with just a word for some microseconds, and looks at what the row says of it.
fn expect_run(rt: &impl Abort, alloc: Global, machine: &Machine, row: &Timed) {
    let (number, micros, steps, ran, spent, phase, location) = *row;
    assert!(rt; micros <= 20_000);
    let mut core = started(rt, alloc, machine, number);
    let mut watcher = Counter {
        steps: 0,
        ran: 0,
        last: 0,
    };
    let told = run_for(&mut core, machine, micros, &mut watcher);
    assert!(rt; steps == 0 || watcher.last == START);
    expect_same(
        rt,
        &(
            watcher.steps,
            watcher.ran,
            told,
            core.phase(),
            core.location(),
        ),
        &(steps, ran, spent, phase, location),
    );
}

#[test]
fn timed_runs(rt: HostRuntime) {
    let machine = Machine::standard();
    for row in &TIMED {
        expect_run(&rt, rt.alloc(), &machine, row);
    }
}
