//! The shelf and the sink in memory whose listed calls fail.

use ags_outside::{MemoryShelf, MemorySink, Pull, PutDone, Shelf, Sink};
use std::process::Abort;

/// The calls that are to fail.
const LISTED: [u64; 4] = [0, 2, 3, 3];

/// A file, from where it is read, and what is pulled.
type Pulled = (&'static str, u64, Pull);

/// What is pulled at the listed calls.
const FAILED: [Pulled; 2] = [("A", 4, Pull::Failed), ("B", 0, Pull::Failed)];

/// What is pulled once no further call fails.
const LATER: [Pulled; 3] = [
    ("A", 4, Pull::Got(3)),
    ("A", 7, Pull::End),
    ("B", 0, Pull::Absent),
];

/// Expects what is pulled of a shelf.
fn expect_pulled(rt: &impl Abort, shelf: &mut MemoryShelf, rows: &[Pulled]) {
    let mut room = [0u8; 4];
    for (name, from, wanted) in rows {
        assert!(rt; shelf.pull(name, *from, &mut room) == *wanted);
    }
}

// Calls are counted from 1, one that failed with them; a number after, or listed twice, changes nothing.
#[test]
fn a_shelf_fails_at_its_listed_calls(rt: HostRuntime) {
    let mut shelf = MemoryShelf::new(rt.alloc());
    assert!(&rt; shelf.add("A", b"first").is_ok() && shelf.add("A", b"1234567").is_ok());
    for call in &LISTED {
        assert!(&rt; shelf.fail_at(*call).is_ok());
    }
    let mut room = [0u8; 4];
    assert!(&rt; shelf.pull("A", 0, &mut room) == Pull::Got(4) && room == *b"1234");
    expect_pulled(&rt, &mut shelf, &FAILED);
    assert!(&rt; shelf.fail_at(2).is_ok());
    expect_pulled(&rt, &mut shelf, &LATER);
}

#[test]
fn a_sink_fails_at_its_listed_calls(rt: HostRuntime) {
    let mut sink = MemorySink::new(rt.alloc(), 3);
    assert!(&rt; sink.fail_at(2).is_ok());
    assert!(&rt; sink.put(b"1234") == PutDone::Took(3));
    assert!(&rt; sink.put(b"4") == PutDone::Failed);
    assert!(&rt; sink.put(b"4") == PutDone::Took(1));
    assert!(&rt; sink.bytes() == b"1234".as_slice());
}
