//! A recorder for which memory is wanting at one of its words.

use crate::bench::common::{Case, expect_call, pad_of, sensor_of};
use crate::command_lines::add;
use ags_bench::Status;
use ags_device::Device;
use ags_word::Word;
use std::alloc::AllocError;
use std::marker::Model;

/// A recorder that finds memory for so many words, and for no more.
#[derive(Drop)]
struct SmallRecorder {
    address: u16,
    room: usize,
    words: Vec<Word>,
}

impl Model for SmallRecorder {
    ghost use Rattle.std.specs.Prelude.{Some, None, []};
    ghost use Rattle.ags_device.specs.Record.{DeviceRecord};

    ghost Value = { DeviceRecord };

    ghost view = { λ r. record { feeds = None; hears = Some r.address; plan = []; kept = r.words.items } };
}

impl Device for SmallRecorder {
    ghost record_of = { λ r. r };

    fn feeds(&self) -> Option<u16> {
        let _address = self.address;
        None
    }

    fn hears(&self) -> Option<u16> {
        Some(self.address)
    }

    fn left(&self) -> u64 {
        let _address = self.address;
        0
    }

    fn next(&mut self) -> Option<Word> {
        let _address = self.address;
        None
    }

    fn count(&self) -> u64 {
        self.words.len() as u64
    }

    fn last(&self) -> Option<Word> {
        match self.words.len() {
            0 => None,
            count => Some(self.words[count - 1]),
        }
    }

    fn hear(&mut self, word: Word) -> Result<(), AllocError> {
        if self.words.len() == self.room {
            return Err(AllocError);
        }
        self.words.push(word)?;
        Ok(())
    }
}

/// How many words the recorder has room for, how many the sensor has left, the last sum of the deck's first integrator that is heard, of
/// which each adds 125 up to its limit of 1000, how many digits the pad has left, and the last that it hears: the one that it gave.
const STOPS: [(usize, u64, Option<u32>, u64, Option<u32>); 9] = [
    (0, 99, None, 8, None),
    (1, 98, Some(125), 7, Some(0o000020)),
    (2, 97, Some(250), 6, Some(0o000024)),
    (3, 96, Some(375), 5, Some(0o000027)),
    (4, 95, Some(500), 4, Some(0o000037)),
    (5, 94, Some(625), 3, Some(0o000037)),
    (6, 93, Some(750), 2, Some(0o000037)),
    (7, 92, Some(875), 1, Some(0o000037)),
    (8, 91, Some(1000), 0, Some(0o000037)),
];

// Of a hundred cycles, with a recorder that has room for so many words, the next one stops the run once the cycle's steps are made, and
// what the pad would hear in that cycle comes after it.
#[test]
fn memory_is_wanting_at_each_word(rt: HostRuntime) {
    let alloc = rt.alloc();
    for &(room, words, sum, digits, digit) in &STOPS {
        let small = SmallRecorder {
            address: 0o6001,
            room,
            words: Vec::new(alloc),
        };
        let mut devices = Vec::new(alloc);
        let sensor = Box::new(alloc, sensor_of(&rt, 0o2001, 0o001750, 100));
        add(&rt, &mut devices, sensor.expect(&rt, "memory"));
        let small = Box::new(alloc, small);
        add(&rt, &mut devices, small.expect(&rt, "memory"));
        let pad = Box::new(alloc, pad_of(&rt, alloc));
        add(&rt, &mut devices, pad.expect(&rt, "memory"));
        let heard = room as u64;
        let case = Case {
            script: "CYCLE 100\nSHOW REG\n",
            most: 4096,
            failing: 0,
            status: Status::NoMemory,
            text: "CERTIFIED ROWS 31 CASES 32\n",
            kept: &[(words, 0, None), (0, heard, sum), (digits, heard, digit)],
        };
        expect_call(&rt, &mut devices, &case);
    }
}
