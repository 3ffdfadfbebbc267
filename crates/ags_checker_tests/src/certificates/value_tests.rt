//! Values read at positions of lines: the positions that are wanted are counted by hand, and octal numbers are typed as octal.

use crate::common::{Held, expect_same, value_of};
use ags_cert::read_value;
use ags_domain::Value;
use std::process::Abort;

/// A line, a position, the value that begins there, and the position where it ends.
type Reading = (&'static str, usize, Held, usize);

const READINGS: [Reading; 29] = [
    // every word
    ("ANY", 0, Held::Any, 3),
    ("\t ANY \t", 0, Held::Any, 5),
    ("\t ANY \t", 1, Held::Any, 5),
    ("ANY ANY", 0, Held::Any, 3),
    ("ANY ANY", 3, Held::Any, 7),
    ("ANY 000001", 0, Held::Any, 3),
    ("A ANY Q WORDS 404001", 1, Held::Any, 5),
    ("ROW 4000 A ANY Q ANY X 0 V 0", 10, Held::Any, 14),
    // ranges
    (
        "RANGE -131072 131071",
        0,
        Held::Range(-131_072, 131_071),
        20,
    ),
    ("RANGE 4 6", 0, Held::Range(4, 6), 9),
    ("RANGE 1 2 3", 0, Held::Range(1, 2), 9),
    ("RANGE -5 -000005 000001", 0, Held::Range(-5, -5), 16),
    (" \tRANGE\t  1 \t2\tQ", 0, Held::Range(1, 2), 14),
    ("A RANGE 0 7 Q ANY", 1, Held::Range(0, 7), 11),
    ("A RANGE 0 7 Q ANY", 2, Held::Range(0, 7), 11),
    ("CELL 4000 RANGE -0 000031", 9, Held::Range(0, 31), 25),
    // word sets
    ("WORDS 404001", 0, Held::Word(0o404001), 12),
    ("WORDS 000001 000003 000002", 0, Held::Pair(1, 3), 19),
    ("WORDS 000003 000003", 0, Held::Word(3), 12),
    ("WORDS 777777 000001", 0, Held::Word(0o777777), 12),
    ("WORDS 000001 0000020", 0, Held::Word(1), 12),
    ("WORDS 000001 00002", 0, Held::Word(1), 12),
    ("WORDS 000001 ANY", 0, Held::Word(1), 12),
    (
        "CELL 0017 WORDS 000000 777777",
        9,
        Held::Pair(0, 0o777777),
        29,
    ),
    (
        "CELL 0017 WORDS 000000 777777",
        10,
        Held::Pair(0, 0o777777),
        29,
    ),
    ("\tWORDS\t\t000001 \t000002 \t", 0, Held::Pair(1, 2), 22),
    ("A ANY Q WORDS 404001", 7, Held::Word(0o404001), 20),
    (
        "WORDS 000000 000001 000002 000003 000004 000005 000006 000007 000010 000011 000012 000013 000014 000015 000016 000017",
        0,
        Held::Sixteen(0),
        117,
    ),
    (
        "WORDS 000000 000001 000002 000003 000004 000005 000006 000007 000010 000011 000012 000013 000014 000015 000016 000017 000020",
        0,
        Held::Sixteen(0),
        117,
    ),
];

/// Lines, and positions where no value begins.
const NOTHING: [(&str, usize); 22] = [
    ("", 0),
    (" \t ", 0),
    (" \t ", 3),
    ("ANY", 1),
    ("ANY", 3),
    ("ANYX", 0),
    ("any", 0),
    ("000001", 0),
    ("RANGE", 0),
    ("RANGE 1", 0),
    ("RANGE 1 ANY", 0),
    ("RANGE 5 3", 0),
    ("RANGE 0 -1 000001", 0),
    ("RANGE 0 131072", 0),
    ("RANGE 131072 1", 0),
    ("WORDS", 0),
    ("WORDS ANY", 0),
    ("WORDS 0000010", 0),
    ("CELL 0017 WORDS 000000 777777", 0),
    ("CELL 0017 WORDS 000000 777777", 11),
    ("CELL 0017 WORDS 000000 777777", 16),
    ("CELL 0017 WORDS 000000 777777", 29),
];

/// Expects what value begins at a position of a line, and where it ends.
fn expect_value(rt: &impl Abort, line: &str, from: usize, wanted: Option<(Value, usize)>) {
    let bytes = line.as_bytes();
    assert!(rt; from <= bytes.len());
    let told = read_value(bytes, from);
    expect_same(rt, &(line, from, told), &(line, from, wanted));
}

#[test]
fn values_are_read(rt: HostRuntime) {
    for &(line, from, held, behind) in &READINGS {
        expect_value(&rt, line, from, Some((value_of(&rt, held), behind)));
    }
}

#[test]
fn nothing_is_read(rt: HostRuntime) {
    for &(line, from) in &NOTHING {
        expect_value(&rt, line, from, None);
    }
}
