//! The kinds of devices, each alone and in a list, and one that is written here.

use crate::command_lines::{add, expect_same};
use crate::machine::common::word;
use ags_device::{
    Device, Pad, Recorder, Sensor, Tape, count_at, feeds_at, hear_all, hear_at, hears_at, last_at,
    left_at, next_at, remove_at,
};
use ags_word::Word;
use std::alloc::{AllocError, Global};
use std::marker::Model;
use std::process::Abort;

/// The addresses that a device feeds and hears, how many words it has left and has heard, and the last of those.
type Told = (Option<u16>, Option<u16>, u64, u64, Option<Word>);

// ---- one device, through its bound

/// What a device tells of itself.
fn told<D: Device>(device: &D) -> Told {
    (
        device.feeds(),
        device.hears(),
        device.left(),
        device.count(),
        device.last(),
    )
}

/// Expects that a device gives the words of some numbers, and then none.
fn expect_words<D: Device>(rt: &impl Abort, device: &mut D, numbers: &[u32]) {
    for number in numbers {
        expect_same(rt, &device.next(), &Word::of(*number));
    }
    expect_same(rt, &device.next(), &None);
    expect_same(rt, &device.left(), &0);
}

/// Has a device hear the word of a number.
fn hear<D: Device>(rt: &impl Abort, device: &mut D, number: u32) {
    assert!(rt; device.hears().is_some());
    assert!(rt; device.hear(word(rt, number)).is_ok());
}

/// The numbers of a sensor's first word and of what is added, how many words it gives, and their numbers.
const SENSORS: [(u32, u32, u32, &[u32]); 4] = [
    (0o000001, 0o777777, 3, &[0o000001, 0o000000, 0o777777]),
    (0o377777, 0o000001, 2, &[0o377777, 0o400000]),
    (0o000005, 0o400000, 3, &[0o000005, 0o400005, 0o000005]),
    (7, 1, 0, &[]),
];

#[test]
fn sensor_ramps(rt: HostRuntime) {
    for &(first, added, count, numbers) in &SENSORS {
        let mut sensor = Sensor::new(0o2001, word(&rt, first), word(&rt, added), count);
        let left = u64::from(count);
        expect_same(&rt, &told(&sensor), &(Some(0o2001), None, left, 0, None));
        expect_words(&rt, &mut sensor, numbers);
    }
    let mut longest = Sensor::new(0o2001, word(&rt, 7), word(&rt, 0), u32::MAX);
    expect_same(&rt, &longest.left(), &4_294_967_295);
    expect_same(&rt, &longest.next(), &Word::of(7));
    expect_same(&rt, &longest.left(), &4_294_967_294);
}

/// The words of some numbers.
fn words(rt: &impl Abort, alloc: Global, numbers: &[u32]) -> Vec<Word> {
    let mut words = Vec::new(alloc);
    for number in numbers {
        assert!(rt; words.push(word(rt, *number)).is_ok());
    }
    words
}

#[test]
fn tape_gives_its_words(rt: HostRuntime) {
    let mut tape = Tape::new(0o2002, words(&rt, rt.alloc(), &[5, 0o777777]));
    expect_same(&rt, &told(&tape), &(Some(0o2002), None, 2, 0, None));
    expect_words(&rt, &mut tape, &[5, 0o777777]);
}

#[test]
fn recorder_keeps_what_it_hears(rt: HostRuntime) {
    let mut recorder = Recorder::new(rt.alloc(), 0o6001);
    expect_same(&rt, &told(&recorder), &(None, Some(0o6001), 0, 0, None));
    hear(&rt, &mut recorder, 0o000005);
    hear(&rt, &mut recorder, 0o000007);
    expect_same(
        &rt,
        &told(&recorder),
        &(None, Some(0o6001), 0, 2, Word::of(0o000007)),
    );
    expect_words(&rt, &mut recorder, &[]);
}

/// A pad that feeds and hears these addresses, and gives these digits, if they are digits.
fn pad(rt: &impl Abort, alloc: Global, feeds: u16, hears: u16, digits: &[u8]) -> Option<Pad> {
    let digits = digits.to_vec(alloc).expect(rt, "memory for digits");
    Pad::new(alloc, feeds, hears, digits)
}

/// Digits, and whether a pad has them: none is above 15.
const DIGITS: [(&[u8], bool); 3] = [(&[0, 16, 3], false), (&[255], false), (&[], true)];

#[test]
fn pad_gives_digits_and_hears(rt: HostRuntime) {
    for &(digits, made) in &DIGITS {
        let pad = pad(&rt, rt.alloc(), 0o2200, 0o2200, digits);
        expect_same(&rt, &(digits, pad.is_some()), &(digits, made));
    }
    let mut pad = pad(&rt, rt.alloc(), 0o2200, 0o2200, &[0, 4, 7, 15]).expect(&rt, "digits");
    hear(&rt, &mut pad, 0o000037);
    expect_same(
        &rt,
        &told(&pad),
        &(Some(0o2200), Some(0o2200), 4, 1, Word::of(0o000037)),
    );
    expect_words(&rt, &mut pad, &[16, 20, 23, 31]);
    expect_same(&rt, &pad.count(), &1);
}

// ---- a kind of one's own

/// A button: it gives one word, once, and hears nothing.
#[derive(Drop)]
struct Button {
    address: u16,
    word: Option<Word>,
}

impl Model for Button {
    ghost use Rattle.std.specs.Prelude.{Some, None, []};
    ghost use Rattle.std.specs.List.{cons_option};
    ghost use Rattle.ags_device.specs.Record.{DeviceRecord};

    ghost Value = { DeviceRecord };

    ghost view = { λ b. record { feeds = Some b.address; hears = None; plan = cons_option b.word []; kept = [] } };
}

impl Device for Button {
    ghost record_of = { λ b. b };

    fn feeds(&self) -> Option<u16> {
        Some(self.address)
    }

    fn hears(&self) -> Option<u16> {
        let _address = self.address;
        None
    }

    fn left(&self) -> u64 {
        match self.word {
            Some(_) => 1,
            None => 0,
        }
    }

    fn next(&mut self) -> Option<Word> {
        match self.word {
            Some(word) => {
                self.word = None;
                Some(word)
            }
            None => None,
        }
    }

    fn count(&self) -> u64 {
        let _address = self.address;
        0
    }

    fn last(&self) -> Option<Word> {
        let _address = self.address;
        None
    }

    // No call meets the condition of `hear`.
    fn hear(&mut self, _word: Word) -> Result<(), AllocError> {
        let _address = self.address;
        Ok(())
    }
}

#[test]
fn button_gives_its_word_once(rt: HostRuntime) {
    let mut button = Button {
        address: 0o2003,
        word: Word::of(9),
    };
    expect_same(&rt, &told(&button), &(Some(0o2003), None, 1, 0, None));
    expect_words(&rt, &mut button, &[9]);
}

// ---- a list of boxes

/// What is done with a list of devices, and what comes of it, where the first number is the position of a device.
enum Step {
    /// The device's next word has this number.
    Next(usize, u32),
    /// The device hears the word of a number at an address, where it hears that.
    Hear(usize, u16, u32),
    /// Each device hears the word of a number at an address, where it hears that.
    HearAll(u16, u32),
    /// The device tells this of itself: the addresses that it feeds and hears, how many words it has left and has heard, and the number
    /// of the last of those.
    Tell(usize, Option<u16>, Option<u16>, u64, u64, Option<u32>),
    /// The device is dropped, and so many are left.
    Remove(usize, usize),
}

/// Each device of the list of kinds is changed, and they are dropped one by one.
const STEPS: [Step; 22] = [
    Step::Next(0, 1),
    Step::Next(0, 3),
    Step::Next(1, 5),
    Step::Next(2, 16),
    Step::Next(4, 9),
    Step::HearAll(0o6001, 5),
    Step::HearAll(0o6001, 7),
    Step::HearAll(0o6002, 1),
    Step::Hear(2, 0o6200, 9),
    Step::Hear(2, 0o2200, 1),
    Step::Tell(0, Some(0o2001), None, 1, 0, None),
    Step::Tell(1, Some(0o2002), None, 1, 0, None),
    Step::Tell(2, Some(0o2200), Some(0o6200), 2, 1, Some(9)),
    Step::Tell(3, None, Some(0o6001), 0, 2, Some(7)),
    Step::Tell(4, Some(0o2003), None, 0, 0, None),
    Step::Remove(3, 4),
    Step::Tell(3, Some(0o2003), None, 0, 0, None),
    Step::Remove(0, 3),
    Step::Next(0, 7),
    Step::Remove(1, 2),
    Step::Remove(1, 1),
    Step::Remove(0, 0),
];

/// Does a step with a list of devices, and expects what comes of it.
fn expect_step(rt: &impl Abort, devices: &mut Vec<Box<dyn Device>>, step: &Step) {
    match *step {
        Step::Next(at, number) => {
            assert!(rt; at < devices.len());
            expect_same(rt, &(at, next_at(devices, at)), &(at, Word::of(number)));
        }
        Step::Hear(at, address, number) => {
            assert!(rt; at < devices.len());
            assert!(rt; hear_at(devices, at, address, word(rt, number)).is_ok());
        }
        Step::HearAll(address, number) => {
            let count = devices.len();
            assert!(rt; hear_all(devices, count, address, word(rt, number)).is_ok());
        }
        Step::Tell(at, feeds, hears, left, count, last) => {
            assert!(rt; at < devices.len());
            expect_same(
                rt,
                &(
                    feeds_at(devices, at),
                    hears_at(devices, at),
                    left_at(devices, at),
                    count_at(devices, at),
                    last_at(devices, at).map(Word::number),
                ),
                &(feeds, hears, left, count, last),
            );
        }
        Step::Remove(at, left) => {
            assert!(rt; at < devices.len());
            remove_at(devices, at);
            expect_same(rt, &(at, devices.len()), &(at, left));
        }
    }
}

#[test]
fn kinds_in_one_list(rt: HostRuntime) {
    let alloc = rt.alloc();
    let mut devices = Vec::new(alloc);
    let sensor = Sensor::new(0o2001, word(&rt, 1), word(&rt, 2), 3);
    let sensor = Box::new(alloc, sensor);
    add(&rt, &mut devices, sensor.expect(&rt, "memory"));
    let tape = Tape::new(0o2002, words(&rt, alloc, &[5, 7]));
    let tape = Box::new(alloc, tape);
    add(&rt, &mut devices, tape.expect(&rt, "memory"));
    let pad = pad(&rt, alloc, 0o2200, 0o6200, &[0, 4, 15]).expect(&rt, "digits");
    let pad = Box::new(alloc, pad);
    add(&rt, &mut devices, pad.expect(&rt, "memory"));
    let recorder = Box::new(alloc, Recorder::new(alloc, 0o6001));
    add(&rt, &mut devices, recorder.expect(&rt, "memory"));
    let button = Button {
        address: 0o2003,
        word: Word::of(9),
    };
    let button = Box::new(alloc, button);
    add(&rt, &mut devices, button.expect(&rt, "memory"));
    change_and_drop(&rt, &mut devices);
}

/// Changes each device of the list of kinds, and drops them one by one.
fn change_and_drop(rt: &impl Abort, devices: &mut Vec<Box<dyn Device>>) {
    for step in &STEPS {
        expect_step(rt, devices, step);
    }
}
