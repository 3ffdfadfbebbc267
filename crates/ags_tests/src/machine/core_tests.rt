//! What events are told to do, which no script shows: reports worked by hand on the standard machine.

ghost use Rattle.std.specs.Prelude.{◌<◌, ◌≡◌, length};
ghost use Rattle.ags_ports.specs.State.{IsState};

use crate::machine::common::{image_of, word};
use ags_core::Core;
use ags_ports::{Done, Event, Machine, Stored};
use std::alloc::Global;
use std::process::Abort;

/// A core with these words in its cells.
fn loaded(
    rt: &impl Abort,
    alloc: Global,
    machine: &Machine,
    cells: &[(u16, u32)],
    start: u16,
) -> Core
    ensures { IsState machine.now result }
{
    assert!(rt; start < 4096);
    Core::new(alloc, machine, &image_of(rt, alloc, cells), start).expect(rt, "memory for a core")
}

/// What is told of an event, with the address of what it takes, stores or gives.
#[derive(Clone, Copy)]
enum Told {
    /// It runs no order.
    Idle,
    /// It runs an order that does nothing that is told.
    Ran,
    Overflow,
    Took(u16),
    Stored(u16),
    Gave(u16),
}

/// The report of an event at a location with this word, where what is stored or given is 400000.
fn report(rt: &impl Abort, location: u16, number: u32, told: Told) -> Done {
    let mut report = Done {
        ran: true,
        location,
        word: word(rt, number),
        overflow: false,
        stored: None,
        took: None,
        gave: None,
    };
    let least = word(rt, 0o400000);
    match told {
        Told::Idle => report.ran = false,
        Told::Ran => {}
        Told::Overflow => report.overflow = true,
        Told::Took(address) => report.took = Some(address),
        Told::Stored(address) => {
            report.stored = Some(Stored {
                address,
                word: least,
            });
        }
        Told::Gave(address) => {
            report.gave = Some(Stored {
                address,
                word: least,
            });
        }
    }
    report
}

/// Expects what one event is told to do at a location and its word.
fn expect(
    rt: &impl Abort,
    machine: &Machine,
    core: &mut Core,
    event: Event,
    order: (u16, u32),
    told: Told,
)
    requires inputs { length core.old.inputs ≡ length machine.now.ports.inputs }
    requires outputs { length core.old.outputs ≡ length machine.now.ports.outputs }
    ensures inputs { length core.new.inputs ≡ length core.old.inputs }
    ensures outputs { length core.new.outputs ≡ length core.old.outputs }
{
    let done = core.act(machine, event);
    assert!(rt; done == report(rt, order.0, order.1, told), "{}", order.0);
}

/// Transfers from registers, a sum that overflows, stores, and transfers to registers, from 4000 octal on.
const CELLS: [(u16, u32); 12] = [
    (0o0200, 0o377777),
    (0o0201, 1),
    // INP 2200, INP 2003, CLA 0200, ADD 0201, AXT 5
    (0o4000, 0o642200),
    (0o4001, 0o642003),
    (0o4002, 0o200200),
    (0o4003, 0o220201),
    (0o4004, 0o500005),
    // STO 0010 with the index bit, STO 4010, OUT 6200, OUT 6003, and a word that is no order
    (0o4005, 0o110010),
    (0o4006, 0o104010),
    (0o4007, 0o666200),
    (0o4010, 0o666003),
    (0o4011, 0o000000),
];

/// Steps one after the other: the location, its word, and what is told. A is 400000 from the sum on.
const STEPS: [((u16, u32), Told); 10] = [
    ((0o4000, 0o642200), Told::Took(0o2200)),
    ((0o4001, 0o642003), Told::Took(0o2003)),
    ((0o4002, 0o200200), Told::Ran),
    ((0o4003, 0o220201), Told::Overflow),
    ((0o4004, 0o500005), Told::Ran),
    ((0o4005, 0o110010), Told::Stored(0o0015)),
    ((0o4006, 0o104010), Told::Stored(0o4010)),
    ((0o4007, 0o666200), Told::Gave(0o6200)),
    ((0o4010, 0o666003), Told::Gave(0o6003)),
    ((0o4011, 0), Told::Idle),
];

#[test]
fn events_are_told(rt: HostRuntime) {
    let machine = Machine::standard();
    let mut core = loaded(&rt, rt.alloc(), &machine, &CELLS, 0o4000);
    let put = Event::Put {
        address: 0o2200,
        word: word(&rt, 7),
    };
    expect(
        &rt,
        &machine,
        &mut core,
        put,
        (0o4000, 0o642200),
        Told::Idle,
    );
    for step in &STEPS {
        expect(&rt, &machine, &mut core, Event::Step, step.0, step.1);
    }
}
