//! What no clause says: that each call succeeds where there is memory, how many bytes are asked for at once, and
//! that a fault in mid-stream is answered as one.

ghost use Rattle.ags_outside.specs.ToldFile.{Untold};

use crate::common::expect_same;
use crate::outside::common::shelf_of;
use ags_decks::FailingSink;
use ags_outside::{FetchError, Pull, SendError, Shelf, SteadyShelf, SteadySink, fetch, send};
use std::alloc::Global;
use std::process::Abort;

/// The files of a shelf, one of which is added twice.
const FILES: [(&str, &[u8]); 5] = [
    ("empty", b""),
    ("short", b"first"),
    ("other", b"kept"),
    ("short", b"replaced"),
    ("five", b"12345"),
];

/// A name, the limit, and the bytes that are fetched.
const FETCHED: [(&str, u64, &[u8]); 6] = [
    ("empty", 10_000, b""),
    ("short", 10_000, b"replaced"),
    ("other", 10_000, b"kept"),
    ("five", 5, b"12345"),
    ("five", u64::MAX, b"12345"),
    ("empty", 0, b""),
];

/// A name, the limit, and why nothing is fetched.
const REFUSED: [(&str, u64, FetchError); 3] = [
    ("six", 5, FetchError::Absent),
    ("five", 0, FetchError::TooLong),
    ("five", 4, FetchError::TooLong),
];

/// So many bytes that don't repeat with the pieces in which they are read.
fn long_file(rt: &impl Abort, alloc: Global, length: u32) -> Vec<u8> {
    let mut bytes = Vec::new(alloc);
    for at in 0..length {
        assert!(rt; bytes.push((at % 251) as u8).is_ok());
    }
    bytes
}

/// Expects what is fetched by a name within a limit.
fn expect_fetched(
    rt: &impl Abort,
    alloc: Global,
    shelf: &mut SteadyShelf,
    name: &str,
    limit: u64,
    wanted: Result<&[u8], FetchError>,
) {
    let fetched = fetch(alloc, shelf, name, limit);
    let told = match &fetched {
        Ok(bytes) => Ok(bytes.as_slice()),
        Err(fault) => Err(*fault),
    };
    expect_same(rt, &(name, limit, told), &(name, limit, wanted));
}

#[test]
fn files_are_fetched_whole_or_refused(rt: HostRuntime) {
    let alloc = rt.alloc();
    let long = long_file(&rt, alloc, 10_000);
    let mut shelf = shelf_of(&rt, alloc, &FILES);
    assert!(rt; shelf.add("long", &long).is_ok());
    expect_fetched(&rt, alloc, &mut shelf, "long", 10_000, Ok(&long));
    for &(name, limit, bytes) in &FETCHED {
        expect_fetched(&rt, alloc, &mut shelf, name, limit, Ok(bytes));
    }
    for &(name, limit, fault) in &REFUSED {
        expect_fetched(&rt, alloc, &mut shelf, name, limit, Err(fault));
    }
}

/// A shelf that tells nothing: a file of zeros, after whose last byte it answers with what it turns to. It keeps for how many bytes
/// each pull asked.
#[derive(Drop)]
struct TurningShelf {
    length: usize,
    then: Pull,
    faults: u64,
    absences: u64,
    asked: Vec<usize>,
}

impl Shelf for TurningShelf {
    ghost told = { λ _ _. Untold };

    ghost faults = { λ shelf. shelf.faults };

    ghost absences = { λ shelf. shelf.absences };

    fn pull(&mut self, _name: &str, from: u64, into: &mut [u8]) -> Pull {
        if self.asked.push(into.len()).is_err() {
            return Pull::NoMemory;
        }
        let from = from as usize;
        if from < self.length {
            return Pull::Got(into.len().min(self.length - from));
        }
        match self.then {
            Pull::Got(_) => Pull::Got(1),
            Pull::End => Pull::End,
            Pull::Absent => {
                self.absences = self.absences.saturating_add(1);
                Pull::Absent
            }
            Pull::Failed => {
                self.faults = self.faults.saturating_add(1);
                Pull::Failed
            }
            Pull::NoMemory => Pull::NoMemory,
        }
    }
}

/// The length of a file, what its shelf turns to, the limit, how many bytes are fetched, and for how many bytes each pull asks.
type Turn = (
    usize,
    Pull,
    u64,
    Result<usize, FetchError>,
    &'static [usize],
);

/// Pieces are asked for up to the limit and one byte beyond it. A file that is cut off is never given as a whole one, and no refusal is
/// followed by another pull.
const TURNS: [Turn; 10] = [
    // files that end
    (0, Pull::End, 0, Ok(0), &[1]),
    (1, Pull::End, 1, Ok(1), &[2, 1]),
    (5_000, Pull::End, 10_000, Ok(5_000), &[4096, 4096, 4096]),
    (5_000, Pull::End, 5_000, Ok(5_000), &[4096, 905, 1]),
    (
        5_000,
        Pull::End,
        4_096,
        Err(FetchError::TooLong),
        &[4096, 1],
    ),
    // a fault after some pieces
    (
        5_000,
        Pull::Failed,
        10_000,
        Err(FetchError::ReadFault),
        &[4096, 4096, 4096],
    ),
    // what else comes after one byte
    (1, Pull::Absent, 1, Err(FetchError::Absent), &[2, 1]),
    (1, Pull::Failed, 1, Err(FetchError::ReadFault), &[2, 1]),
    (1, Pull::NoMemory, 1, Err(FetchError::NoMemory), &[2, 1]),
    (1, Pull::Got(1), 1, Err(FetchError::TooLong), &[2, 1]),
];

/// Expects of a shelf that turns how many bytes are fetched, and for how many bytes each pull asks.
fn expect_turned(rt: &impl Abort, alloc: Global, row: &Turn) {
    let (length, then, limit, wanted, asked) = *row;
    let mut shelf = TurningShelf {
        length,
        then,
        faults: 0,
        absences: 0,
        asked: Vec::new(alloc),
    };
    let told = match fetch(alloc, &mut shelf, "turning", limit) {
        Ok(bytes) => Ok(bytes.len()),
        Err(fault) => Err(fault),
    };
    expect_same(
        rt,
        &(length, limit, told, shelf.asked.as_slice()),
        &(length, limit, wanted, asked),
    );
}

#[test]
fn pieces_are_asked_for_till_the_shelf_turns(rt: HostRuntime) {
    for row in &TURNS {
        expect_turned(&rt, rt.alloc(), row);
    }
}

/// Bytes that are sent one after the other, and all that the sink holds then.
const SENT: [(&[u8], &[u8]); 3] = [
    (b"", b""),
    (b"0123456789", b"0123456789"),
    (b"abc", b"0123456789abc"),
];

/// How many bytes a sink takes at once.
const MOST: [usize; 4] = [1, 3, 10, 11];

#[test]
fn all_bytes_are_sent(rt: HostRuntime) {
    for &most in &MOST {
        assert!(rt; 0 < most);
        let mut sink = SteadySink::new(rt.alloc(), most);
        for &(bytes, all) in &SENT {
            let told = send(&mut sink, bytes);
            expect_same(&rt, &(most, told, sink.bytes()), &(most, Ok(()), all));
        }
    }
}

// No put is made for no bytes, and none after a put that failed.
/// Bytes, the put that fails, the answer, and how many puts are made.
const PUTS: [(&[u8], u64, Result<(), SendError>, u64); 5] = [
    (b"", 1, Ok(()), 0),
    (b"12345", 1, Err(SendError::WriteFault), 1),
    (b"12345", 2, Err(SendError::WriteFault), 2),
    (b"12345", 3, Err(SendError::WriteFault), 3),
    (b"12345", 4, Ok(()), 3),
];

#[test]
fn a_fault_in_mid_text_is_told(rt: HostRuntime) {
    for &(bytes, fails_at, wanted, puts) in &PUTS {
        let mut sink = FailingSink::with_room(fails_at, 2);
        let told = send(&mut sink, bytes);
        expect_same(
            &rt,
            &(fails_at, told, sink.puts()),
            &(fails_at, wanted, puts),
        );
    }
}
