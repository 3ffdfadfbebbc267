//! Rows worked out by hand from the rules of first lines.

use crate::common::expect_same;
use ags_frame::{Opening, read_opening};

/// The first lines of a text of which there are two versions, and what they are.
const OPENINGS: [(&str, Opening); 16] = [
    ("TIMES 1", Opening::Version(1)),
    ("TIMES 2", Opening::Version(2)),
    ("\tTIMES  2 ", Opening::Version(2)),
    ("TIMES 0", Opening::Another),
    ("TIMES 00", Opening::Another),
    ("TIMES 3", Opening::Another),
    ("TIMES 003", Opening::Another),
    ("TIMES 999999", Opening::Another),
    ("TIMES 01", Opening::Malformed),
    ("TIMES 002", Opening::Malformed),
    ("TIMES 1000000", Opening::Malformed),
    ("TIMES 0000003", Opening::Malformed),
    ("TIMES 1 2", Opening::Malformed),
    ("TIMES", Opening::Malformed),
    ("TIME 1", Opening::Malformed),
    ("", Opening::Malformed),
];

#[test]
fn openings_are_read(rt: HostRuntime) {
    for &(line, wanted) in &OPENINGS {
        let told = read_opening(line.as_bytes(), b"TIMES", 2);
        expect_same(&rt, &(line, told), &(line, wanted));
    }
}
