//! What the tests share: the deck with its certificate, the three devices of the program, and what is expected of a call.

use crate::command_lines::{add, arguments_of, expect_same};
use ags_bench::{Status, bench_main};
use ags_decks::{DECK, DECK_CERTIFICATE};
use ags_device::{Device, Pad, Recorder, Sensor, count_at, last_at, left_at};
use ags_outside::{MemoryShelf, MemorySink};
use ags_word::Word;
use std::alloc::Global;
use std::process::Abort;

/// What is expected of a device: how many words it has left, how many it has heard, and the last of those.
pub(crate) type Kept = (u64, u64, Option<u32>);

/// A call, and what is expected of it.
#[derive(Drop)]
pub(crate) struct Case<'a> {
    /// The script.
    pub(crate) script: &'a str,
    /// How many bytes the sink takes at once.
    pub(crate) most: usize,
    /// The put that fails, counted from 1; none at 0.
    pub(crate) failing: u64,
    /// The status.
    pub(crate) status: Status,
    /// All that is written.
    pub(crate) text: &'a str,
    /// The devices that are left.
    pub(crate) kept: &'a [Kept],
}

/// A sensor of this address that gives so many words, of which each is this one.
pub(crate) fn sensor_of(rt: &impl Abort, address: u16, number: u32, count: u32) -> Sensor {
    let first = Word::of(number).expect(rt, "the number of a word");
    let by = Word::of(0).expect(rt, "the number of a word");
    Sensor::new(address, first, by, count)
}

/// The pad of the program: the digits of an entry, and then six without a key.
pub(crate) fn pad_of(rt: &impl Abort, alloc: Global) -> Pad {
    let digits = vec![in alloc; 0u8, 4, 7, 15, 15, 15, 15, 15, 15].expect(rt, "memory for digits");
    Pad::new(alloc, 0o2200, 0o6200, digits).expect(rt, "digits")
}

/// A shelf with the deck S, its certificate C and a script P.
pub(crate) fn shelf_with(rt: &impl Abort, alloc: Global, script: &str) -> MemoryShelf {
    let mut shelf = MemoryShelf::new(alloc);
    assert!(rt; shelf.add("S", DECK.as_bytes()).is_ok());
    assert!(rt; shelf.add("C", DECK_CERTIFICATE.as_bytes()).is_ok());
    assert!(rt; shelf.add("P", script.as_bytes()).is_ok());
    shelf
}

/// Expects these devices.
fn expect_kept(rt: &impl Abort, devices: &Vec<Box<dyn Device>>, wanted: &[Kept]) {
    expect_same(rt, &devices.len(), &wanted.len());
    for (position, kept) in wanted.iter().enumerate() {
        assert!(rt; position < devices.len());
        let last = last_at(devices, position).map(|word| word.number());
        let told = (
            left_at(devices, position),
            count_at(devices, position),
            last,
        );
        expect_same(rt, &told, kept);
    }
}

/// Runs the bench over the files of a shelf with some devices, and expects what comes of it.
pub(crate) fn expect_over(
    rt: &(impl AllocGlobal + Abort),
    shelf: &mut MemoryShelf,
    devices: &mut Vec<Box<dyn Device>>,
    line: &str,
    case: &Case<'_>,
) {
    let alloc = rt.alloc();
    let mut out = MemorySink::new(alloc, case.most.max(1));
    if 0 < case.failing {
        assert!(rt; out.fail_at(case.failing).is_ok());
    }
    let words = arguments_of(rt, alloc, line);
    let ended = bench_main(alloc, &words, shelf, &mut out, devices);
    expect_same(
        rt,
        &(
            line,
            case.script,
            case.failing,
            ended,
            str::from_utf8(out.bytes()),
        ),
        &(line, case.script, case.failing, case.status, Ok(case.text)),
    );
    expect_kept(rt, devices, case.kept);
}

/// Runs it over the deck.
pub(crate) fn expect_call(
    rt: &(impl AllocGlobal + Abort),
    devices: &mut Vec<Box<dyn Device>>,
    case: &Case<'_>,
) {
    let mut shelf = shelf_with(rt, rt.alloc(), case.script);
    expect_over(rt, &mut shelf, devices, "S C P", case);
}

/// Runs it with the program's three devices, of which the sensor gives this word.
pub(crate) fn expect_three(rt: &(impl AllocGlobal + Abort), first: u32, case: &Case<'_>) {
    let alloc = rt.alloc();
    let mut devices = Vec::new(alloc);
    let sensor = Box::new(alloc, sensor_of(rt, 0o2001, first, 100));
    add(rt, &mut devices, sensor.expect(rt, "memory"));
    let pad = Box::new(alloc, pad_of(rt, alloc));
    add(rt, &mut devices, pad.expect(rt, "memory"));
    let recorder = Box::new(alloc, Recorder::new(alloc, 0o6001));
    add(rt, &mut devices, recorder.expect(rt, "memory"));
    expect_call(rt, &mut devices, case);
}
