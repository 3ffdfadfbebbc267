//! Rows that were worked out outside the crate.

use crate::common::{
    add, expect_same, full_limits, is_covered_by, open_parts, range, row_of, value, word,
};
use ags_domain::{Domain, Value, WordSet};
use ags_row::{At, Limits, Link, Post, Row, RowParts, cell_of};
use ags_word::Word;
use std::alloc::Global;
use std::process::Abort;

/// Up to three cells with the ends of what they may hold.
type Cells = [Option<(u16, i32, i32)>; 3];

/// No cell.
const NO_CELLS: Cells = [None; 3];

/// The parts of a row at 4000 octal where all may stand with index 0 and a clear indicator, and that names these cells.
fn parts(rt: &impl Abort, alloc: Global, cells: Cells) -> RowParts<Value> {
    let mut parts = open_parts(alloc, 0o4000, [true, false], None);
    for cell in &cells {
        if let Some((address, least, greatest)) = *cell {
            let value = value(rt, (least, greatest));
            add(rt, &mut parts.at, At { address, value });
        }
    }
    parts
}

/// Three cells that ascend.
const CELLS: Cells = [Some((0, 0, 3)), Some((0o17, -5, 5)), Some((0o3777, 1, 1))];

/// Expects the location, A and the number of cells of a row.
fn expect_row(rt: &impl Abort, row: &Row<Value>, location: u16, a: Value, cells: usize) {
    let told = (row.location(), row.a(), row.at().len());
    expect_same(rt, &told, &(location, a, cells));
}

#[test]
fn parts_that_make_a_row(rt: HostRuntime) {
    let row = row_of(&rt, parts(&rt, rt.alloc(), CELLS));
    expect_row(&rt, &row, 0o4000, Value::full(), 3);
}

/// The index 0 alone.
const ZERO: [bool; 8] = [true, false, false, false, false, false, false, false];

/// A location, indexes, indicators and cells that make no row.
const BAD_PARTS: [(u16, [bool; 8], [bool; 2], Cells); 6] = [
    (4096, ZERO, [true, false], CELLS),
    (0o4000, [false; 8], [true, false], CELLS),
    (0o4000, ZERO, [false; 2], CELLS),
    (
        0o4000,
        ZERO,
        [true, false],
        [Some((0o17, 0, 0)), Some((0o17, 0, 0)), None],
    ),
    (
        0o4000,
        ZERO,
        [true, false],
        [Some((0o4000, 0, 0)), None, None],
    ),
    (
        0o4000,
        ZERO,
        [true, false],
        [Some((1, 0, 0)), Some((0, 0, 0)), None],
    ),
];

/// Whether a row is made that names so many cells.
fn is_made_of_many(rt: &impl Abort, alloc: Global, count: u16) -> bool {
    let mut parts = parts(rt, alloc, NO_CELLS);
    for address in 0..count {
        let value = Value::full();
        add(rt, &mut parts.at, At { address, value });
    }
    Row::of(parts).is_some()
}

#[test]
fn parts_that_make_no_row(rt: HostRuntime) {
    let alloc = rt.alloc();
    for place in 0..BAD_PARTS.len() {
        let (location, x, v, cells) = BAD_PARTS[place];
        let mut bad = parts(&rt, alloc, cells);
        bad.location = location;
        bad.x = x;
        bad.v = v;
        expect_same(&rt, &(place, Row::of(bad).is_some()), &(place, false));
    }
    expect_same(&rt, &is_made_of_many(&rt, alloc, 64), &true);
    expect_same(&rt, &is_made_of_many(&rt, alloc, 65), &false);
}

/// Links by address and offset, and whether one may stand in a row.
const LINKS: [(u16, i32, bool); 7] = [
    (0, 0, true),
    (2047, 262_143, true),
    (2047, -262_143, true),
    (2048, 0, false),
    (65535, 0, false),
    (0, 262_144, false),
    (0, -262_144, false),
];

#[test]
fn links_that_may_stand_in_a_row(rt: HostRuntime) {
    for &(address, offset, stands) in &LINKS {
        let link = Some(Link { address, offset });
        let made = Row::of(open_parts(rt.alloc(), 0o4000, [true, false], link)).is_some();
        expect_same(&rt, &(address, offset, made), &(address, offset, stands));
    }
}

/// Whether limits hold a word in two places of each kind, and of the cells in a third; and whether they name two locations.
fn told_of<D: Domain>(limits: &Limits<D>, word: Word) -> [bool; 9] {
    [
        limits.cell(0o20).holds(word),
        limits.cell(0o21).holds(word),
        limits.cell(0o3777).holds(word),
        limits.input(0o2001).holds(word),
        limits.input(0o2002).holds(word),
        limits.output(0o6001).holds(word),
        limits.output(0o6002).holds(word),
        limits.may(0o4000),
        limits.may(0o4001),
    ]
}

/// What is told of limits that hold each word.
const FULL: [bool; 9] = [true, true, true, true, true, true, true, false, false];

/// The same, where the first place of each kind is set to hold other words, and the first location is named.
const FIRSTS_SET: [bool; 9] = [false, true, true, false, true, false, true, true, false];

/// Limits of a domain, each full at first; the first place of each kind is then set to what a word is outside of, and the first location
/// is named.
fn limits_of<D: Domain>(rt: &impl Abort, alloc: Global, set: D, outside: Word) -> Limits<D> {
    let mut limits = full_limits(rt, alloc);
    expect_same(rt, &told_of(&limits, outside), &FULL);
    limits.set_cell(0o20, set);
    limits.set_input(0o2001, set);
    limits.set_output(0o6001, set);
    limits.name_place(0o4000);
    expect_same(rt, &told_of(&limits, outside), &FIRSTS_SET);
    limits
}

/// What cells may hold in a row that names the first three.
const HELD: [(u16, (i32, i32)); 5] = [
    (0, (0, 3)),
    (0o17, (1, 2)),
    (0o3777, (4, 4)),
    (0o16, (-131_072, 131_071)),
    (0o20, (-5, 5)),
];

/// Asserts what the cells of a row may hold.
fn expect_cells(rt: &impl Abort, base: &Row<Value>, limits: &Limits<Value>) {
    for &(address, held) in &HELD {
        assert!(rt; address < 2048);
        let told = cell_of(base, limits, address);
        expect_same(rt, &(address, told), &(address, value(rt, held)));
    }
}

#[test]
fn limits_and_cells(rt: HostRuntime) {
    let alloc = rt.alloc();
    let outside = word(&rt, 6);
    let _ = limits_of(&rt, alloc, range(&rt, (-5, 5)), outside);
    let limits = limits_of(&rt, alloc, value(&rt, (-5, 5)), outside);
    let cells = parts(
        &rt,
        alloc,
        [Some((0, 0, 3)), Some((0o17, 1, 2)), Some((0o3777, 4, 4))],
    );
    expect_cells(&rt, &row_of(&rt, cells), &limits);
}

#[test]
fn value_of_a_word_is_its_set(rt: HostRuntime) {
    let word = word(&rt, 0o100020);
    let words = WordSet::of(&[word]).expect(&rt, "a word set");
    expect_same(&rt, &Value::of_word(word), &Value::Words(words));
}

/// In what a post differs from one that goes on at 4000 octal, with index 0 and a clear indicator, whose order stands in the cell 20 octal
/// and stores there the words of value 0 to 3.
#[derive(Clone, Copy)]
enum Other {
    Nothing,
    Next(u16),
    Index(u8),
    MaySet,
    NeverClear,
    /// Nothing is stored.
    Unstored,
    /// A test left the words of value 5 to 7 of the cell.
    Tested,
    /// The same, and nothing is stored.
    TestedAlone,
    Linked(u16, i32),
}

/// The cell 20 octal with this value.
fn cell(value: Value) -> Option<At<Value>> {
    let address = 0o20;
    Some(At { address, value })
}

/// The post that differs so.
fn post(rt: &impl Abort, other: Other) -> Post<Value> {
    let tested = cell(value(rt, (5, 7)));
    let post = Post {
        next: 0o4000,
        a: Value::full(),
        q: Value::full(),
        x: 0,
        v0: true,
        v1: false,
        stored: cell(value(rt, (0, 3))),
        code: cell(Value::of_word(word(rt, 0o100020))),
        narrowed: None,
        link: None,
    };
    match other {
        Other::Nothing => post,
        Other::Next(next) => Post { next, ..post },
        Other::Index(x) => Post { x, ..post },
        Other::MaySet => Post { v1: true, ..post },
        Other::NeverClear => Post { v0: false, ..post },
        Other::Unstored => Post {
            stored: None,
            ..post
        },
        Other::Tested => Post {
            narrowed: tested,
            ..post
        },
        Other::TestedAlone => Post {
            stored: None,
            narrowed: tested,
            ..post
        },
        Other::Linked(address, offset) => Post {
            link: Some(Link { address, offset }),
            ..post
        },
    }
}

/// A cell that a row names, and its link; in what a post differs; and whether the row covers it.
type Cover = (Option<(u16, i32, i32)>, Option<Link>, Other, bool);

/// A link.
const LINK: Option<Link> = Some(Link {
    address: 0o20,
    offset: 3,
});

const COVERS: [Cover; 18] = [
    // cells
    (Some((0o20, 0, 2)), None, Other::Nothing, false),
    (Some((0o17, 2, 2)), None, Other::Nothing, false),
    (Some((0o21, 0, 3)), None, Other::Nothing, false),
    // registers
    (None, None, Other::Unstored, true),
    (None, None, Other::Next(0o4001), false),
    (None, None, Other::Index(1), false),
    (None, None, Other::Index(8), false),
    (None, None, Other::MaySet, false),
    (None, None, Other::NeverClear, true),
    // what a test left of the cell counts before the word that the order stands in, and after what was stored
    (Some((0o20, 5, 7)), None, Other::TestedAlone, true),
    (Some((0o20, 5, 6)), None, Other::TestedAlone, false),
    (Some((0o20, 0, 3)), None, Other::Tested, true),
    (Some((0o20, 5, 7)), None, Other::Tested, false),
    // links
    (None, LINK, Other::Linked(0o20, 3), true),
    (None, LINK, Other::Linked(0o20, 2), false),
    (None, LINK, Other::Linked(0o21, 3), false),
    (None, LINK, Other::Nothing, false),
    (None, None, Other::Linked(0o20, 3), true),
];

/// Whether a row covers a post of a row that names the cell 17 octal.
fn is_covered(
    rt: &impl Abort,
    alloc: Global,
    cells: Cells,
    link: Option<Link>,
    other: Other,
) -> bool {
    let mut target = parts(rt, alloc, cells);
    target.link = link;
    let base = row_of(rt, parts(rt, alloc, [Some((0o17, 1, 2)), None, None]));
    is_covered_by(rt, alloc, &row_of(rt, target), &base, &post(rt, other))
}

/// Expects whether rows cover posts.
fn expect_covers(rt: &impl Abort, alloc: Global, covers: &[Cover]) {
    for place in 0..covers.len() {
        let (cell, link, other, covered) = covers[place];
        let told = is_covered(rt, alloc, [cell, None, None], link, other);
        expect_same(rt, &(place, told), &(place, covered));
    }
}

#[test]
fn rows_cover_posts(rt: HostRuntime) {
    expect_covers(&rt, rt.alloc(), &COVERS);
    // What was stored counts before the word that the order stands in.
    let cells = [Some((0o17, 1, 2)), Some((0o20, 0, 3)), None];
    let told = is_covered(&rt, rt.alloc(), cells, None, Other::Nothing);
    expect_same(&rt, &told, &true);
}
