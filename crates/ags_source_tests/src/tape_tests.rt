//! Tapes: what is sent of an image, and what is read of a tape.

use crate::common::expect_same;
use ags_image::{TapeError, read_tape, send_tape};
use ags_outside::SteadySink;
use ags_word::Word;
use std::alloc::Global;
use std::process::Abort;

/// Tapes, each with the one that is sent of its image, and with the numbers of the words at the first location and at the last one,
/// where there are some. The last has lines in another order, and no last line feed.
const TAPES: [(&[u8], &[u8], Option<u32>, Option<u32>); 4] = [
    (b"4000 000007\n", b"4000 000007\n", None, None),
    (b"", b"", None, None),
    (
        b"0000 000000\n0001 777777\n7777 123456\n",
        b"0000 000000\n0001 777777\n7777 123456\n",
        Some(0),
        Some(0o123456),
    ),
    (
        b"7777 000001\n0000 000002",
        b"0000 000002\n7777 000001\n",
        Some(2),
        Some(1),
    ),
];

/// Expects what is sent of a tape's image, and the words at its ends.
fn expect_image(
    rt: &impl Abort,
    alloc: Global,
    text: &[u8],
    sent: &[u8],
    ends: (Option<u32>, Option<u32>),
) {
    assert!(rt; text.len() <= 100);
    let image = read_tape(alloc, text).ok().expect(rt, "a good tape");
    let told = (
        image.get(0).map(Word::number),
        image.get(0o7777).map(Word::number),
    );
    let mut out = SteadySink::new(alloc, 100);
    let answer = send_tape(&image, &mut out);
    expect_same(
        rt,
        &(text, answer.is_ok(), out.bytes(), told),
        &(text, true, sent, ends),
    );
}

/// Tapes, each with its first fault.
const FAULTS: [(&[u8], TapeError); 6] = [
    (
        b"4000 000007\n4000 000007",
        TapeError::PlaceTwice {
            line: 2,
            location: 0o4000,
        },
    ),
    (b"4000 000007\n400 000007\n", TapeError::BadLine { line: 2 }),
    (b"4000 00007\n", TapeError::BadLine { line: 1 }),
    (b"4000 000007\r\n", TapeError::BadLine { line: 1 }),
    (b"4000 000007\n\n", TapeError::BadLine { line: 2 }),
    (b"8000 000007\n", TapeError::BadLine { line: 1 }),
];

#[test]
fn tapes_are_read_and_sent_back(rt: HostRuntime) {
    for &(text, sent, first, last) in &TAPES {
        expect_image(&rt, rt.alloc(), text, sent, (first, last));
    }
    for &(text, fault) in &FAULTS {
        assert!(rt; text.len() <= 100);
        let told = read_tape(rt.alloc(), text).err();
        expect_same(&rt, &(text, told), &(text, Some(fault)));
    }
}
