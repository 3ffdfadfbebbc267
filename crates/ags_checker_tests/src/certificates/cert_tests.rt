//! Parts that make no certificate, which the reader of texts tells before.

use crate::certificates::common::{OPEN, Said, certificate, row};
use crate::common::{Held, Limit, add};
use std::alloc::Global;
use std::process::Abort;

/// A row that says of the cell 17 octal that it is 1 to 9.
const ROW: Said = Said {
    at: (Some((0o17, Held::Range(1, 9))), None),
    ..OPEN
};

/// Whether so many such rows at each location from 4000 octal on make a certificate, where the cell 17 octal is 5 to 7 at the start, and
/// its limit 0 to a greatest value.
fn is_made(
    rt: &impl Abort,
    alloc: Global,
    locations: u16,
    rows_at_each: u16,
    greatest: i32,
) -> bool {
    let mut rows = Vec::new(alloc);
    for place in 0..locations {
        assert!(rt; place < 2048);
        let said = Said {
            location: 0o4000 + place,
            ..ROW
        };
        for _ in 0..rows_at_each {
            add(rt, &mut rows, row(rt, alloc, &said));
        }
    }
    let limits = [Limit::Cell(0o17, Held::Range(0, greatest))];
    let firsts = [(0o17, Held::Range(5, 7))];
    certificate(rt, alloc, 0o4000, &limits, &firsts, rows).is_some()
}

/// How many locations, how many rows at each, the greatest value of the cell 17 octal, and whether they make a certificate: not where
/// there is no row, a row too many at one location or of all, or a value at the start or in a row outside its limit.
const PARTS: [(u16, u16, i32, bool); 6] = [
    (2, 512, 9, true),
    (0, 0, 9, false),
    (1, 513, 9, false),
    (100, 201, 9, false),
    (1, 1, 6, false),
    (1, 1, 8, false),
];

#[test]
fn parts_that_make_a_certificate(rt: HostRuntime) {
    for &(locations, rows_at_each, greatest, made) in &PARTS {
        assert!(rt; is_made(&rt, rt.alloc(), locations, rows_at_each, greatest) == made);
    }
}
