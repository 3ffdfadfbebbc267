//! Cases that were worked out outside the crate: one machine, one image and few rows for all of them.

use crate::common::{
    Held, Limit, add, expect_same, full_limits, image_of, is_covered_by, limits_of, range, row_of,
    value, word,
};
use crate::counted_tests::posts_of;
use ags_domain::{Domain, Operands, Range, Value, WordSet};
use ags_image::Image;
use ags_ports::Machine;
use ags_row::{At, Limits, Link, Post, Row, RowParts};
use ags_safe::{PostPair, Stop};
use ags_transfer::code;
use ags_word::Word;
use std::alloc::Global;
use std::fmt::Debug;
use std::process::Abort;

/// A row where A may hold some words and Q those of value 5 and 6, at any index and with any indicator, that names the cell 0020 or none.
fn row(
    rt: &impl Abort,
    alloc: Global,
    location: u16,
    a: (i32, i32),
    cell: Option<Value>,
) -> Row<Value> {
    let mut at = Vec::new(alloc);
    if let Some(value) = cell {
        let address = 0o20;
        add(rt, &mut at, At { address, value });
    }
    let parts = RowParts {
        location,
        a: value(rt, a),
        q: value(rt, (5, 6)),
        x: [true; 8],
        v: [true; 2],
        at,
        link: None,
    };
    row_of(rt, parts)
}

/// An image with one fixed word, 000007 at 4100.
fn image(rt: &impl Abort, alloc: Global) -> Image {
    image_of(rt, alloc, 0o4100, &[0o000007])
}

/// What limits say.
#[derive(Clone, Copy)]
pub(crate) enum Limited {
    /// They hold each word.
    Nothing,
    /// The cell 0020 holds the words of value -5 to 5.
    OneCell,
    /// Some cells and registers hold few words.
    Some,
    /// The same, and the place 4000 is named.
    SomeAndPlace,
}

/// One cell.
const ONE_CELL: [Limit; 1] = [Limit::Cell(0o20, Held::Range(-5, 5))];

/// Some cells and registers, and a place.
const SOME: [Limit; 7] = [
    Limit::Cell(0o20, Held::Range(2, 4)),
    Limit::Cell(0o22, Held::Range(0, 4)),
    Limit::Cell(0o23, Held::Range(8, 8)),
    Limit::Input(0o2001, Held::Range(7, 9)),
    Limit::Output(0o2001, Held::Range(1, 2)),
    Limit::Output(0o6002, Held::Range(0, 2)),
    Limit::Place(0o4000),
];

/// The limits that say so.
pub(crate) fn limits(rt: &impl Abort, alloc: Global, limited: Limited) -> Limits<Value> {
    let said: &[Limit] = match limited {
        Limited::Nothing => &[],
        Limited::OneCell => &ONE_CELL,
        Limited::Some => &SOME[..6],
        Limited::SomeAndPlace => &SOME,
    };
    limits_of(rt, alloc, said)
}

/// One thing that an order changes in a case.
#[derive(Clone, Copy)]
enum Change {
    Nothing,
    A(i32, i32),
    AnyA,
    WordInA(u32),
    Q(i32, i32),
    AnyQ,
    /// A is 0, and Q any word.
    ZeroAndAnyQ,
    WordInQ(u32),
    Next(u16),
    Index(u8),
    MaySet,
    IsClear,
    Stored(u16, i32, i32),
    Cleared(u16),
    Linked(u16),
}

/// The value of one word.
pub(crate) fn alone(rt: &impl Abort, number: u32) -> Value {
    Value::of_word(word(rt, number))
}

/// A cell with what it may hold.
fn at(address: u16, value: Value) -> Option<At<Value>> {
    Some(At { address, value })
}

/// A post with one change.
fn changed(rt: &impl Abort, mut post: Post<Value>, change: Change) -> Post<Value> {
    match change {
        Change::Nothing => {}
        Change::A(least, greatest) => post.a = value(rt, (least, greatest)),
        Change::AnyA => post.a = Value::full(),
        Change::WordInA(number) => post.a = alone(rt, number),
        Change::Q(least, greatest) => post.q = value(rt, (least, greatest)),
        Change::AnyQ => post.q = Value::full(),
        Change::ZeroAndAnyQ => {
            post.a = value(rt, (0, 0));
            post.q = Value::full();
        }
        Change::WordInQ(number) => post.q = alone(rt, number),
        Change::Next(next) => post.next = next,
        Change::Index(x) => post.x = x,
        Change::MaySet => post.v1 = true,
        Change::IsClear => {
            post.v0 = true;
            post.v1 = false;
        }
        Change::Stored(address, least, greatest) => {
            post.stored = at(address, value(rt, (least, greatest)));
        }
        Change::Cleared(address) => post.stored = at(address, alone(rt, 0)),
        Change::Linked(address) => post.link = Some(Link { address, offset: 0 }),
    }
    post
}

/// The posts of a word in a row, under limits, at an index and an indicator.
pub(crate) fn judged_in_row<D: Domain>(
    rt: &impl Abort,
    alloc: Global,
    limits: &Limits<D>,
    base: &Row<D>,
    number: u32,
    x: u8,
    v: bool,
) -> Result<PostPair<D>, Stop<D>> {
    let word = word(rt, number);
    assert!(rt; x < 8);
    posts_of(
        &Machine::standard(),
        &image(rt, alloc),
        limits,
        base,
        word,
        x,
        v,
    )
}

/// Where a row is, the ends of its A, and what the limits say.
#[derive(Clone, Copy)]
struct Base {
    location: u16,
    a: (i32, i32),
    limited: Limited,
}

/// Where A holds the words of value 1 to 3.
const FEW: Base = Base {
    location: 0o4000,
    a: (1, 3),
    limited: Limited::Some,
};

/// Where A holds words of both signs.
const SIGNS: Base = Base { a: (-2, 3), ..FEW };

/// Where A holds any word.
const ANY: Base = Base {
    a: (-131_072, 131_071),
    ..FEW
};

/// The same at a named place.
const NAMED: Base = Base {
    limited: Limited::SomeAndPlace,
    ..ANY
};

/// The cell 0020.
const CELL: Base = Base {
    location: 0o20,
    a: (0, 3),
    limited: Limited::Nothing,
};

/// Where A holds any word, and one cell is limited.
const LOADING: Base = Base {
    limited: Limited::OneCell,
    ..ANY
};

/// The same, where A holds the words of value 0 to 3.
const TESTING: Base = Base {
    a: (0, 3),
    ..LOADING
};

/// What a case is answered.
#[derive(Clone, Copy)]
enum Answer {
    /// A post, with two changes.
    Post(Change, Change),
    /// Two posts, each with two changes.
    Posts((Change, Change), (Change, Change)),
    NoOrder,
    BadPort,
    /// What is stored to a fixed cell.
    FixedWrite(u16),
    /// Operands that overflow: A, Q and the cell.
    MayOverflow(u32, u32, u32),
    /// A range that is stored outside a cell's limit.
    CellRange(u16, i32, i32),
    /// The word 0, which is stored outside a cell's limit.
    CellCleared(u16),
    /// A range that is given outside an output register's limit.
    OutputRange(u16, i32, i32),
}

/// A base, a word, the index and the indicator, and the answer.
type Case = (Base, u32, (u8, bool), Answer);

/// The post of a case that goes on at the next location, but for two changes. A cell that is run from holds the word.
fn post_with(rt: &impl Abort, case: &Case, first: Change, second: Change) -> Post<Value> {
    let (base, number, (x, v), _) = *case;
    let code = if base.location < 2048 {
        at(base.location, alone(rt, number))
    } else {
        None
    };
    let post = Post {
        next: base.location.wrapping_add(1),
        a: value(rt, base.a),
        q: value(rt, (5, 6)),
        x,
        v0: !v,
        v1: v,
        stored: None,
        code,
        narrowed: None,
        link: None,
    };
    changed(rt, changed(rt, post, first), second)
}

/// The answer that is wanted of a case.
fn answer_of(rt: &impl Abort, case: &Case) -> Result<PostPair<Value>, Stop<Value>> {
    match case.3 {
        Answer::Post(first, second) => Ok(PostPair {
            first: Some(post_with(rt, case, first, second)),
            second: None,
        }),
        Answer::Posts(taken, rest) => Ok(PostPair {
            first: Some(post_with(rt, case, taken.0, taken.1)),
            second: Some(post_with(rt, case, rest.0, rest.1)),
        }),
        Answer::NoOrder => Err(Stop::NoOrder),
        Answer::BadPort => Err(Stop::BadPort),
        Answer::FixedWrite(address) => Err(Stop::FixedWrite { address }),
        Answer::MayOverflow(a, q, m) => Err(Stop::MayOverflow(Operands {
            a: word(rt, a),
            q: word(rt, q),
            m: word(rt, m),
        })),
        Answer::CellRange(address, least, greatest) => Err(Stop::CellRange {
            address,
            value: value(rt, (least, greatest)),
        }),
        Answer::CellCleared(address) => Err(Stop::CellRange {
            address,
            value: alone(rt, 0),
        }),
        Answer::OutputRange(address, least, greatest) => Err(Stop::OutputRange {
            address,
            value: value(rt, (least, greatest)),
        }),
    }
}

/// A store to the cell that is run from.
const STORE: Case = (
    CELL,
    0o100020,
    (2, false),
    Answer::Post(Change::Stored(0o20, 0, 3), Change::Linked(0o20)),
);

const CASES: [Case; 51] = [
    // orders that load and store
    (
        FEW,
        0o200020,
        (2, false),
        Answer::Post(Change::A(2, 4), Change::Linked(0o20)),
    ),
    (
        FEW,
        0o210020,
        (2, false),
        Answer::Post(Change::A(0, 4), Change::Linked(0o22)),
    ),
    (
        FEW,
        0o204100,
        (2, false),
        Answer::Post(Change::WordInA(7), Change::Nothing),
    ),
    (
        FEW,
        0o140020,
        (2, false),
        Answer::Post(Change::Q(2, 4), Change::Nothing),
    ),
    (
        FEW,
        0o100021,
        (2, false),
        Answer::Post(Change::Stored(0o21, 1, 3), Change::Linked(0o21)),
    ),
    (
        FEW,
        0o120021,
        (2, false),
        Answer::Post(Change::Stored(0o21, 5, 6), Change::Nothing),
    ),
    (
        FEW,
        0o300021,
        (2, false),
        Answer::Post(Change::AnyA, Change::Cleared(0o21)),
    ),
    (
        LOADING,
        0o300020,
        (0, false),
        Answer::Post(Change::A(-5, 5), Change::Cleared(0o20)),
    ),
    // orders that add and change signs
    (
        FEW,
        0o220020,
        (2, false),
        Answer::Post(Change::A(3, 7), Change::Nothing),
    ),
    (
        FEW,
        0o240020,
        (2, false),
        Answer::Post(Change::A(-3, 1), Change::Nothing),
    ),
    (
        FEW,
        0o320022,
        (2, false),
        Answer::Post(Change::A(1, 7), Change::Cleared(0o22)),
    ),
    (
        FEW,
        0o340022,
        (2, false),
        Answer::Post(Change::A(-3, 3), Change::Cleared(0o22)),
    ),
    (
        FEW,
        0o600000,
        (2, false),
        Answer::Post(Change::A(-3, -1), Change::Nothing),
    ),
    (
        FEW,
        0o620000,
        (2, false),
        Answer::Post(Change::Nothing, Change::Nothing),
    ),
    // orders that multiply, divide and shift
    (
        FEW,
        0o560002,
        (2, false),
        Answer::Post(Change::A(4, 12), Change::Nothing),
    ),
    (
        FEW,
        0o260020,
        (2, false),
        Answer::Post(Change::ZeroAndAnyQ, Change::Nothing),
    ),
    (
        FEW,
        0o160020,
        (2, false),
        Answer::Post(Change::ZeroAndAnyQ, Change::Nothing),
    ),
    (
        FEW,
        0o360022,
        (2, false),
        Answer::Post(Change::ZeroAndAnyQ, Change::Cleared(0o22)),
    ),
    (
        FEW,
        0o020023,
        (2, false),
        Answer::Post(Change::A(16384, 65535), Change::Nothing),
    ),
    (
        FEW,
        0o540001,
        (2, false),
        Answer::Post(Change::A(0, 1), Change::AnyQ),
    ),
    (
        FEW,
        0o520001,
        (2, false),
        Answer::Post(Change::A(2, 7), Change::AnyQ),
    ),
    // orders that jump
    (
        FEW,
        0o400030,
        (2, false),
        Answer::Post(Change::Next(0o30), Change::Nothing),
    ),
    (
        FEW,
        0o410030,
        (2, false),
        Answer::Post(Change::Next(0o32), Change::Nothing),
    ),
    (
        FEW,
        0o420030,
        (2, false),
        Answer::Post(Change::Next(0o30), Change::Index(1)),
    ),
    (
        FEW,
        0o420030,
        (0, false),
        Answer::Post(Change::Nothing, Change::Nothing),
    ),
    (
        FEW,
        0o440030,
        (2, false),
        Answer::Post(Change::Nothing, Change::Nothing),
    ),
    (
        FEW,
        0o440030,
        (2, true),
        Answer::Post(Change::Next(0o30), Change::IsClear),
    ),
    (
        FEW,
        0o460030,
        (2, false),
        Answer::Post(Change::Nothing, Change::Nothing),
    ),
    (
        TESTING,
        0o460010,
        (0, false),
        Answer::Post(Change::A(0, 3), Change::Nothing),
    ),
    (
        SIGNS,
        0o460030,
        (2, false),
        Answer::Posts(
            (Change::A(-2, -1), Change::Next(0o30)),
            (Change::A(0, 3), Change::Nothing),
        ),
    ),
    (
        FEW,
        0o700030,
        (2, false),
        Answer::Post(Change::Next(0o30), Change::Nothing),
    ),
    (
        FEW,
        0o720030,
        (2, false),
        Answer::Post(Change::Next(0o30), Change::WordInQ(0o404001)),
    ),
    // orders of the index and of ports
    (
        FEW,
        0o500013,
        (2, false),
        Answer::Post(Change::Index(3), Change::Nothing),
    ),
    (
        FEW,
        0o642001,
        (2, false),
        Answer::Post(Change::A(7, 9), Change::Nothing),
    ),
    (
        FEW,
        0o666001,
        (2, true),
        Answer::Post(Change::Nothing, Change::Nothing),
    ),
    // orders in an erasable cell
    STORE,
    (
        CELL,
        0o200020,
        (2, false),
        Answer::Post(Change::WordInA(0o200020), Change::Linked(0o20)),
    ),
    // stops of orders and of places
    (FEW, 0o000000, (2, false), Answer::NoOrder),
    (FEW, 0o640000, (2, false), Answer::BadPort),
    (FEW, 0o662001, (2, false), Answer::BadPort),
    (FEW, 0o104100, (2, false), Answer::FixedWrite(0o4100)),
    (ANY, 0o324100, (2, false), Answer::FixedWrite(0o4100)),
    // stops of words
    (
        ANY,
        0o600000,
        (2, false),
        Answer::MayOverflow(0o400000, 0, 0),
    ),
    (
        FEW,
        0o020020,
        (2, false),
        Answer::MayOverflow(3, 0o377777, 2),
    ),
    (
        ANY,
        0o320020,
        (2, false),
        Answer::MayOverflow(0o377777, 0, 4),
    ),
    (FEW, 0o100020, (2, false), Answer::CellRange(0o20, 1, 3)),
    (FEW, 0o320020, (2, false), Answer::CellCleared(0o20)),
    (FEW, 0o666002, (2, false), Answer::OutputRange(0o6002, 1, 3)),
    // a place of an overflow that is named
    (
        NAMED,
        0o600000,
        (2, false),
        Answer::Post(Change::MaySet, Change::Nothing),
    ),
    (
        NAMED,
        0o320022,
        (2, false),
        Answer::Post(Change::MaySet, Change::Cleared(0o22)),
    ),
    (NAMED, 0o320020, (2, false), Answer::CellCleared(0o20)),
];

/// Expects the answer of a case.
fn expect_answer(rt: &impl Abort, alloc: Global, case: &Case) {
    let (base, number, (x, v), _) = *case;
    let row = row(rt, alloc, base.location, base.a, None);
    let limits = limits(rt, alloc, base.limited);
    let told = judged_in_row(rt, alloc, &limits, &row, number, x, v);
    assert!(rt; told == answer_of(rt, case), "{number}");
}

#[test]
fn cases_have_their_answers(rt: HostRuntime) {
    for case in &CASES {
        expect_answer(&rt, rt.alloc(), case);
    }
}

/// Expects whether a row at 0021 that names the cell 0020 covers what a store leaves that is run from there.
fn expect_covered(rt: &impl Abort, alloc: Global, cell: Value, covered: bool) {
    let base = row(rt, alloc, 0o20, (0, 3), None);
    let target = row(rt, alloc, 0o21, (0, 3), Some(cell));
    let post = post_with(rt, &STORE, Change::Stored(0o20, 0, 3), Change::Linked(0o20));
    let told = is_covered_by(rt, alloc, &target, &base, &post);
    expect_same(rt, &told, &covered);
}

// The words that a store to the cell that is run from leaves count before its own word.
#[test]
fn store_to_the_cell_that_is_run(rt: HostRuntime) {
    expect_covered(&rt, rt.alloc(), value(&rt, (0, 3)), true);
    expect_covered(&rt, rt.alloc(), alone(&rt, 0o100020), false);
}

/// The words of a row that names the cell 0020 or none, if they are few, where each other cell may hold any word.
fn words_at(rt: &impl Abort, alloc: Global, location: u16, cell: Option<Value>) -> Option<WordSet> {
    let base = row(rt, alloc, location, ANY.a, cell);
    code(&image(rt, alloc), &full_limits(rt, alloc), &base)
}

#[test]
fn words_of_a_code(rt: HostRuntime) {
    let alloc = rt.alloc();
    let cell = words_at(&rt, alloc, 0o20, Some(value(&rt, (0, 15)))).expect(&rt, "some words");
    expect_same(&rt, &cell.words().len(), &16);
    expect_same(
        &rt,
        &words_at(&rt, alloc, 0o20, Some(value(&rt, (0, 16)))),
        &None,
    );
    let fixed = words_at(&rt, alloc, 0o4100, None).expect(&rt, "one word");
    expect_same(&rt, &fixed.words(), &[word(&rt, 7)].as_slice());
}

/// Expects what CLA 4100 leaves in A, where all may stand.
fn expect_loaded<D: Domain + PartialEq + Debug>(rt: &impl Abort, alloc: Global, wanted: D) {
    let parts = RowParts {
        location: 0o4000,
        a: D::full(),
        q: D::full(),
        x: [true; 8],
        v: [true; 2],
        at: Vec::new(alloc),
        link: None,
    };
    let base = row_of(rt, parts);
    let limits = full_limits(rt, alloc);
    match judged_in_row(rt, alloc, &limits, &base, 0o204100, 0, false) {
        Ok(
            PostPair {
                first: Some(post),
                ..
            },
        ) => expect_same(rt, &post.a, &wanted),
        _ => panic!(rt; "no post"),
    }
}

#[test]
fn posts_of_both_domains(rt: HostRuntime) {
    expect_loaded::<Range>(&rt, rt.alloc(), range(&rt, (7, 7)));
    expect_loaded::<Value>(&rt, rt.alloc(), alone(&rt, 7));
}

/// Expects many times that the cases of a word go on, at each index and with each indicator.
fn expect_many(
    rt: &impl Abort,
    machine: &Machine,
    image: &Image,
    limits: &Limits<Value>,
    base: &Row<Value>,
    word: Word,
) {
    for _ in 0..20_000 {
        for x in 0..8 {
            for v in [false, true] {
                let told = posts_of(machine, image, limits, base, word, x, v);
                assert!(rt; told.is_ok());
            }
        }
    }
}

#[test]
fn many_cases(rt: HostRuntime) {
    let alloc = rt.alloc();
    let (image, limits) = (image(&rt, alloc), limits(&rt, alloc, Limited::Some));
    let base = row(&rt, alloc, 0o4000, (1, 3), None);
    let add = word(&rt, 0o220020);
    expect_many(&rt, &Machine::standard(), &image, &limits, &base, add);
}
