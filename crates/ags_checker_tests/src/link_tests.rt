//! What an order leaves of the link of A to a cell, and what TMI tells of the linked cell.

use crate::common::{expect_same, row_of, value};
use crate::transfer_tests::{Limited, alone, judged_in_row, limits};
use ags_domain::Value;
use ags_row::{At, Link, Post, RowParts};
use ags_safe::{PostPair, Stop};
use std::alloc::Global;
use std::process::Abort;

/// The posts of a word in a row with a link, with index 2 and a clear indicator, where A may hold the words between two values.
fn posts_in(
    rt: &impl Abort,
    alloc: Global,
    location: u16,
    ends: (i32, i32),
    link: Link,
    limited: Limited,
    number: u32,
) -> Result<PostPair<Value>, Stop<Value>> {
    let parts = RowParts {
        location,
        a: value(rt, ends),
        q: value(rt, (5, 6)),
        x: [false, false, true, false, false, false, false, false],
        v: [true, false],
        at: Vec::new(alloc),
        link: Some(link),
    };
    let base = row_of(rt, parts);
    let limits = limits(rt, alloc, limited);
    judged_in_row(rt, alloc, &limits, &base, number, 2, false)
}

/// What becomes of a link.
#[derive(Clone, Copy)]
enum Fate {
    /// There is none.
    Gone,
    /// It stays as it is.
    Kept,
    /// It is to a cell, with the offset 0.
    To(u16),
    /// It has another offset.
    Moved(i32),
}

/// The link after one with an offset.
fn link_after(link: Link, fate: Fate) -> Option<Link> {
    match fate {
        Fate::Gone => None,
        Fate::Kept => Some(link),
        Fate::To(address) => Some(Link { address, offset: 0 }),
        Fate::Moved(offset) => Some(Link { offset, ..link }),
    }
}

/// An order, the cell that it touches, and what becomes of a link to that cell and of one to another.
type LinkRow = (u32, u16, Fate, Fate);

/// The cell 0020 holds 2 to 4, 0021 any word, 0022 the words 0 to 4, 0023 the word 8, and 4100 the word 7.
const LINKS: [LinkRow; 33] = [
    // orders that load and store
    (0o200020, 0o20, Fate::To(0o20), Fate::To(0o20)),
    (0o204100, 0o20, Fate::Gone, Fate::Gone),
    (0o140021, 0o21, Fate::Kept, Fate::Kept),
    (0o100021, 0o21, Fate::To(0o21), Fate::To(0o21)),
    (0o120021, 0o21, Fate::Gone, Fate::Kept),
    (0o300021, 0o21, Fate::Gone, Fate::Gone),
    // sums and differences
    (0o220023, 0o23, Fate::Moved(2), Fate::Moved(2)),
    (0o220020, 0o20, Fate::Gone, Fate::Gone),
    (0o224100, 0o20, Fate::Moved(3), Fate::Moved(3)),
    (0o240023, 0o23, Fate::Moved(18), Fate::Moved(18)),
    (0o240020, 0o20, Fate::Gone, Fate::Gone),
    (0o244100, 0o20, Fate::Moved(17), Fate::Moved(17)),
    (0o320022, 0o22, Fate::Gone, Fate::Gone),
    (0o340022, 0o22, Fate::Gone, Fate::Gone),
    // signs, products, quotients and shifts
    (0o600000, 0o20, Fate::Gone, Fate::Gone),
    (0o620000, 0o20, Fate::Gone, Fate::Gone),
    (0o560002, 0o20, Fate::Gone, Fate::Gone),
    (0o260020, 0o20, Fate::Gone, Fate::Gone),
    (0o160020, 0o20, Fate::Gone, Fate::Gone),
    (0o360022, 0o22, Fate::Gone, Fate::Gone),
    (0o020023, 0o23, Fate::Gone, Fate::Gone),
    (0o540001, 0o20, Fate::Gone, Fate::Gone),
    (0o520001, 0o20, Fate::Gone, Fate::Gone),
    // orders that jump, and those of the index
    (0o400030, 0o30, Fate::Kept, Fate::Kept),
    (0o420030, 0o30, Fate::Kept, Fate::Kept),
    (0o460030, 0o21, Fate::Kept, Fate::Kept),
    (0o440030, 0o30, Fate::Kept, Fate::Kept),
    (0o700030, 0o30, Fate::Kept, Fate::Kept),
    (0o720030, 0o30, Fate::Kept, Fate::Kept),
    (0o500013, 0o20, Fate::Kept, Fate::Kept),
    // ports
    (0o642001, 0o20, Fate::Gone, Fate::Gone),
    (0o666001, 0o20, Fate::Kept, Fate::Kept),
    (0o666002, 0o20, Fate::Kept, Fate::Kept),
];

/// The ends of A, the offset of a link to the cell 0040, the limits, an order with the word 7 of 4100, and what becomes
/// of the link.
type OffsetRow = ((i32, i32), i32, Limited, u32, Fate);

const OFFSETS: [OffsetRow; 9] = [
    // offsets at their limits
    (
        (1, 2),
        262_136,
        Limited::Some,
        0o244100,
        Fate::Moved(262_143),
    ),
    ((1, 2), 262_137, Limited::Some, 0o244100, Fate::Gone),
    ((1, 2), 262_143, Limited::Some, 0o244100, Fate::Gone),
    (
        (1, 2),
        262_143,
        Limited::Some,
        0o224100,
        Fate::Moved(262_136),
    ),
    (
        (1, 2),
        -262_136,
        Limited::Some,
        0o224100,
        Fate::Moved(-262_143),
    ),
    ((1, 2), -262_137, Limited::Some, 0o224100, Fate::Gone),
    (
        (1, 2),
        -262_143,
        Limited::Some,
        0o244100,
        Fate::Moved(-262_136),
    ),
    // a place that is named keeps the link where no operands overflow, and has none where some do
    ((1, 2), 10, Limited::SomeAndPlace, 0o224100, Fate::Moved(3)),
    (
        (1, 131_071),
        10,
        Limited::SomeAndPlace,
        0o224100,
        Fate::Gone,
    ),
];

/// Expects what a word at 4000 makes of a link.
fn expect_link(
    rt: &impl Abort,
    alloc: Global,
    ends: (i32, i32),
    link: Link,
    limited: Limited,
    number: u32,
    fate: Fate,
) {
    match posts_in(rt, alloc, 0o4000, ends, link, limited, number) {
        Ok(
            PostPair {
                first: Some(post),
                ..
            },
        ) => {
            expect_same(rt, &(number, post.link), &(number, link_after(link, fate)));
        }
        _ => panic!(rt; "no post of the word {number}"),
    }
}

#[test]
fn links_by_order(rt: HostRuntime) {
    for &(number, touched, to_touched, to_other) in &LINKS {
        for (address, fate) in [(touched, to_touched), (0o40, to_other)] {
            let offset = 10;
            let link = Link { address, offset };
            expect_link(&rt, rt.alloc(), (1, 2), link, Limited::Some, number, fate);
        }
    }
}

#[test]
fn links_by_offset(rt: HostRuntime) {
    for &(ends, offset, limited, number, fate) in &OFFSETS {
        let address = 0o40;
        let link = Link { address, offset };
        expect_link(&rt, rt.alloc(), ends, link, limited, number, fate);
    }
}

/// What a post of TMI says: where it goes, the ends of A, and those of the linked cell.
type Way = (u16, (i32, i32), (i32, i32));

/// The post of a way, if there is one, with a link.
fn post_of(rt: &impl Abort, link: Link, way: Option<Way>) -> Option<Post<Value>> {
    match way {
        Some((next, a, cell)) => Some(Post {
            next,
            a: value(rt, a),
            q: value(rt, (5, 6)),
            x: 2,
            v0: true,
            v1: false,
            stored: None,
            code: None,
            narrowed: Some(At {
                address: link.address,
                value: value(rt, cell),
            }),
            link: Some(link),
        }),
        None => None,
    }
}

/// The ends of A, the offset of a link to the cell 0020, which holds 2 to 4, and the ways of TMI 0030 at 4000.
const TESTS: [((i32, i32), i32, [Option<Way>; 2]); 6] = [
    // both parts leave some of the cell
    (
        (-2, 3),
        4,
        [
            Some((0o30, (-2, -1), (2, 3))),
            Some((0o4001, (0, 3), (4, 4))),
        ],
    ),
    // a part is empty by the range of A
    ((1, 3), 1, [Some((0o4001, (1, 3), (2, 4))), None]),
    ((-3, -1), 5, [Some((0o30, (-3, -1), (2, 4))), None]),
    // a part is empty by the link
    ((-2, 3), 1, [Some((0o4001, (0, 3), (2, 4))), None]),
    ((-2, 3), 5, [Some((0o30, (-2, -1), (3, 4))), None]),
    // both are: no state is in the row
    ((-2, 3), 100, [None, None]),
];

/// Expects the ways of TMI 0030 at 4000.
fn expect_ways(
    rt: &impl Abort,
    alloc: Global,
    ends: (i32, i32),
    offset: i32,
    ways: [Option<Way>; 2],
) {
    let address = 0o20;
    let link = Link { address, offset };
    let told = posts_in(rt, alloc, 0o4000, ends, link, Limited::Some, 0o460030);
    let pair = PostPair {
        first: post_of(rt, link, ways[0]),
        second: post_of(rt, link, ways[1]),
    };
    assert!(rt; told == Ok(pair), "{ends:?} {offset}");
}

#[test]
fn ways_of_tmi_with_a_link(rt: HostRuntime) {
    for &(ends, offset, ways) in &TESTS {
        expect_ways(&rt, rt.alloc(), ends, offset, ways);
    }
}

/// The posts of TMI 0030 in the cell 0020, which A is linked to, where A may hold the words of value 1 to 3.
fn run_from_linked_cell(
    rt: &impl Abort,
    alloc: Global,
    offset: i32,
) -> Result<PostPair<Value>, Stop<Value>> {
    let address = 0o20;
    let link = Link { address, offset };
    posts_in(rt, alloc, address, (1, 3), link, Limited::Nothing, 0o460030)
}

// The cell holds the order's own word, whose value is -106472.
#[test]
fn link_to_the_cell_that_is_run(rt: HostRuntime) {
    let alloc = rt.alloc();
    let pair = run_from_linked_cell(&rt, alloc, -106_474)
        .ok()
        .expect(&rt, "posts");
    let post = pair.first.expect(&rt, "a post");
    let own = Some(At {
        address: 0o20,
        value: alone(&rt, 0o460030),
    });
    expect_same(&rt, &post.next, &0o21);
    expect_same(&rt, &post.code, &own);
    expect_same(&rt, &post.narrowed, &own);
    let none = PostPair {
        first: None,
        second: None,
    };
    assert!(rt; run_from_linked_cell(&rt, alloc, -106_476) == Ok(none));
}
