//! Rows worked out by hand from the rules of a certificate's lines: octal numbers are typed as octal.

use crate::common::{Held, value_of};
use ags_certtext::{
    CertLines, Entry, RowLine, Statement, Table, first_line_has_one_reading, line_has_one_reading,
    spelled_statements_are_lawful,
};
use ags_domain::Value;
use ags_frame::{Line, read_line};
use ags_row::Link;
use std::process::Abort;

/// The value that is said, where one is.
fn value_if(rt: &impl Abort, held: Option<Held>) -> Option<Value> {
    match held {
        Some(held) => Some(value_of(rt, held)),
        None => None,
    }
}

/// Clear alone, set alone, and both.
const CLEAR: [bool; 2] = [true, false];

const SET: [bool; 2] = [false, true];

const EITHER: [bool; 2] = [true, true];

/// The index 0 alone, some of them, and all.
const ZERO: [bool; 8] = [true, false, false, false, false, false, false, false];

const SOME: [bool; 8] = [true, true, true, false, false, false, false, true];

const ALL: [bool; 8] = [true; 8];

/// Every word.
const ANY: Option<Held> = Some(Held::Any);

/// Lines of entries, each with its table, its address and its value; an empty range is no value.
const ENTRIES: [(&str, Table, u16, Option<Held>); 12] = [
    // every word and ranges
    ("CELL 0017 ANY", Table::Cell, 0o17, ANY),
    (
        "INIT 3777 RANGE 4 6",
        Table::Init,
        0o3777,
        Some(Held::Range(4, 6)),
    ),
    (
        "IN 2200 RANGE -131072 131071",
        Table::In,
        0o2200,
        Some(Held::Range(-131_072, 131_071)),
    ),
    (
        "OUT 6200 RANGE -0 000031",
        Table::Out,
        0o6200,
        Some(Held::Range(0, 31)),
    ),
    (
        "CELL 0017 RANGE -000005 -5",
        Table::Cell,
        0o17,
        Some(Held::Range(-5, -5)),
    ),
    ("CELL 4000 ANY", Table::Cell, 0o4000, ANY),
    // empty ranges
    ("CELL 0017 RANGE 9 5", Table::Cell, 0o17, None),
    ("AT 0017 RANGE 5 4", Table::At, 0o17, None),
    ("AT 0017 RANGE 0 -1", Table::At, 0o17, None),
    // word sets
    (
        "AT 0017 WORDS 404001",
        Table::At,
        0o17,
        Some(Held::Word(0o404001)),
    ),
    (
        "AT 0017 WORDS 000001 777777",
        Table::At,
        0o17,
        Some(Held::Pair(1, 0o777777)),
    ),
    (
        "AT 0017 WORDS 000000 000001 000002 000003 000004 000005 000006 000007 000010 000011 000012 000013 000014 000015 000016 000017",
        Table::At,
        0o17,
        Some(Held::Sixteen(0)),
    ),
];

/// Lines of links, each with its address and its offset.
const LINKS: [(&str, u16, i32); 6] = [
    ("LINK 0020 10", 0o20, 10),
    ("\tLINK  3777 -262143 ", 0o3777, -262_143),
    ("LINK 0000 262143", 0, 262_143),
    ("LINK 0020 -000009", 0o20, -9),
    ("LINK 0020 -0", 0o20, 0),
    ("LINK 4000 0", 0o4000, 0),
];

/// Expects what a line is; if it isn't, the line is shown.
fn expect_line(rt: &impl Abort, line: &[u8], wanted: Line<Statement>) {
    assert!(rt; read_line::<CertLines>(line) == wanted, "{line:?}");
}

/// Expects the statement of a line.
fn expect_statement(rt: &impl Abort, line: &str, wanted: Statement) {
    expect_line(rt, line.as_bytes(), Line::Stated(wanted));
}

#[test]
fn statements_are_read(rt: HostRuntime) {
    expect_statement(&rt, "START 4000", Statement::Start(0o4000));
    expect_statement(&rt, " \tSTART\t 0000 \t", Statement::Start(0));
    expect_statement(&rt, "MAY 7777", Statement::May(0o7777));
    expect_statement(&rt, "END", Statement::End);
    expect_statement(&rt, "\tEND ", Statement::End);
    for &(line, table, address, held) in &ENTRIES {
        let value = value_if(&rt, held);
        expect_statement(&rt, line, Statement::Entry(table, Entry { address, value }));
    }
    for &(line, address, offset) in &LINKS {
        expect_statement(&rt, line, Statement::Linked(Link { address, offset }));
    }
}

/// Expects what the line of a row says.
fn expect_row(
    rt: &impl Abort,
    line: &str,
    location: u16,
    registers: (Option<Held>, Option<Held>),
    x: [bool; 8],
    v: [bool; 2],
) {
    let row = RowLine {
        location,
        a: value_if(rt, registers.0),
        q: value_if(rt, registers.1),
        x,
        v,
    };
    expect_statement(rt, line, Statement::Row(row));
}

#[test]
fn rows_are_read(rt: HostRuntime) {
    let line = "ROW 4000 A ANY Q ANY X 0 V 0";
    expect_row(&rt, line, 0o4000, (ANY, ANY), ZERO, CLEAR);
    let line = "ROW 4002 A ANY Q WORDS 404001 X 0 V 01";
    let back = Some(Held::Word(0o404001));
    expect_row(&rt, line, 0o4002, (ANY, back), ZERO, EITHER);
    let line = "ROW 0017 A WORDS 000001 777777 Q RANGE -3 7 X 0127 V 1";
    let registers = (Some(Held::Pair(1, 0o777777)), Some(Held::Range(-3, 7)));
    expect_row(&rt, line, 0o17, registers, SOME, SET);
    let line = "ROW 0017 A RANGE 2 1 Q ANY X 01234567 V 0";
    expect_row(&rt, line, 0o17, (None, ANY), ALL, CLEAR);
    let line = "ROW 0017 A RANGE 1 2 Q RANGE 2 1 X 0 V 0";
    let range = Some(Held::Range(1, 2));
    expect_row(&rt, line, 0o17, (range, None), ZERO, CLEAR);
}

/// Lines that do nothing.
const SKIPPED: [&[u8]; 6] = [b"", b" ", b"\t", b" \t \t", b"#", b"# END \x00\xff\r"];

#[test]
fn other_lines_are_skipped(rt: HostRuntime) {
    for line in &SKIPPED {
        expect_line(&rt, line, Line::Skipped);
    }
}

#[test]
fn laws_are_called(_rt: HostRuntime) {
    first_line_has_one_reading();
    line_has_one_reading();
    ags_frame::first_line_has_one_reading::<CertLines>();
    ags_frame::line_has_one_reading::<CertLines>();
    spelled_statements_are_lawful();
}
