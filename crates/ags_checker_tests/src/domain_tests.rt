//! Rows that were worked out outside the crate, one table for each subject.

use crate::common::{expect_same, range, value, value_if, word};
use ags_domain::{Domain, Operands, Range, Value, WordSet};
use ags_word::Word;
use std::alloc::Global;
use std::fmt::Debug;
use std::process::Abort;

/// An operation with a count, or without one.
#[derive(Clone, Copy)]
enum Operation {
    Add,
    Sub,
    Com,
    Abs,
    Als(u32),
    Lls(u32),
    Lrs(u32),
    High,
    Round,
    Over,
}

/// The count of an operation, which is 0 where it has none.
fn count_of(operation: Operation) -> u32 {
    match operation {
        Operation::Als(count) | Operation::Lls(count) | Operation::Lrs(count) => count,
        _ => 0,
    }
}

/// The answer of an operation over a domain.
fn answer<D: Domain>(rt: &impl Abort, operation: Operation, a: &D, m: &D) -> Result<D, Operands> {
    let count = count_of(operation);
    assert!(rt; count < 64);
    match operation {
        Operation::Add => a.add(m),
        Operation::Sub => a.sub(m),
        Operation::Com => a.com(),
        Operation::Abs => a.abs(),
        Operation::Als(_) => a.als(count),
        Operation::Lls(_) => a.lls_high(count),
        Operation::Lrs(_) => Ok(a.lrs_high(count)),
        Operation::High => a.mul_high(m),
        Operation::Round => a.mul_round(m),
        Operation::Over => a.quotient(m),
    }
}

const FULL: (i32, i32) = (-131_072, 131_071);

const LEAST: (i32, i32) = (-131_072, -131_072);

/// An operation, the ends of A and of the cell, and those of what it leaves.
type Interval = (Operation, (i32, i32), (i32, i32), (i32, i32));

const INTERVALS: [Interval; 32] = [
    (Operation::Add, (-1000, 1000), (-125, 125), (-1125, 1125)),
    (Operation::High, (-3, 5), (65536, 65536), (-2, 2)),
    (Operation::Round, (-3, 5), (65536, 65536), (-1, 3)),
    (Operation::Over, (4, 4), (8, 8), (65536, 81919)),
    (
        Operation::Over,
        (-1000, 1000),
        (65536, 131071),
        (-2000, 2001),
    ),
    (Operation::Lls(1), (1, 2), (0, 0), (2, 5)),
    (Operation::Sub, (3, 5), (-1, 1), (2, 6)),
    (Operation::Com, (-3, 5), (0, 0), (-5, 3)),
    (Operation::Abs, (-3, 5), (0, 0), (0, 5)),
    (Operation::Abs, (-131071, -7), (0, 0), (7, 131071)),
    (Operation::Als(2), (-3, 5), (0, 0), (-12, 20)),
    (Operation::Als(63), (0, 0), (0, 0), (0, 0)),
    (Operation::High, FULL, (1, 1), (-1, 0)),
    (Operation::Round, FULL, (1, 1), (-1, 1)),
    (Operation::High, FULL, (-131071, 131071), (-131071, 131071)),
    (Operation::Over, (0, 0), (-4, -1), (-131071, 0)),
    (Operation::Over, (-1, -1), (1, 1), (-131072, -1)),
    (Operation::Lls(1), (-65536, 65535), (0, 0), FULL),
    (Operation::Add, FULL, (0, 0), FULL),
    (Operation::Add, LEAST, (0, 131071), (-131072, -1)),
    (Operation::Sub, FULL, (0, 0), FULL),
    (Operation::Sub, LEAST, LEAST, (0, 0)),
    (Operation::Com, (-131071, 131071), (0, 0), (-131071, 131071)),
    (Operation::Abs, (-131071, 131071), (0, 0), (0, 131071)),
    (Operation::Als(0), FULL, (0, 0), FULL),
    (Operation::Als(1), (-65536, -65536), (0, 0), LEAST),
    (Operation::Lls(0), FULL, (0, 0), FULL),
    (Operation::High, LEAST, (1, 1), (-1, -1)),
    (Operation::Round, LEAST, (1, 1), (-1, -1)),
    // shifts to the right
    (Operation::Lrs(1), (-1, 3), (0, 0), (-1, 1)),
    (Operation::Lrs(0), FULL, (0, 0), FULL),
    (Operation::Lrs(63), FULL, (0, 0), (-1, 0)),
];

/// Intervals that are asked of values too.
const INTERVALS_OF_VALUES: [Interval; 2] = [
    (Operation::Add, (-1000, 1000), (-125, 125), (-1125, 1125)),
    (
        Operation::Over,
        (-1000, 1000),
        (65536, 131071),
        (-2000, 2001),
    ),
];

/// Expects what an operation on two sets leaves, or the operands that overflow.
fn expect_left<D: Domain + PartialEq + Debug>(
    rt: &impl Abort,
    operation: Operation,
    a: D,
    m: D,
    left: Result<D, Operands>,
) {
    expect_same(rt, &answer(rt, operation, &a, &m), &left);
}

#[test]
fn intervals(rt: HostRuntime) {
    for &(operation, a, m, ends) in &INTERVALS {
        let left = Ok(range(&rt, ends));
        expect_left(&rt, operation, range(&rt, a), range(&rt, m), left);
    }
    for &(operation, a, m, ends) in &INTERVALS_OF_VALUES {
        let left = Ok(value(&rt, ends));
        expect_left(&rt, operation, value(&rt, a), value(&rt, m), left);
    }
}

/// An operation, the ends of A and of the cell, and the numbers of the words that it tells: of A, of Q and of the cell.
type Overflow = (Operation, (i32, i32), (i32, i32), (u32, u32, u32));

const OVERFLOWS: [Overflow; 17] = [
    // sums and differences
    (Operation::Add, (100, 131071), (1, 1), (0o377777, 0, 1)),
    (
        Operation::Add,
        (-131072, -100),
        (-1, 0),
        (0o400000, 0, 0o777777),
    ),
    (
        Operation::Add,
        (-131072, -131000),
        (-131072, -131000),
        (0o400110, 0, 0o400110),
    ),
    (
        Operation::Sub,
        (100, 131071),
        (-1, 0),
        (0o377777, 0, 0o777777),
    ),
    (Operation::Sub, (-131072, -100), (1, 1), (0o400000, 0, 1)),
    // negatives and sizes
    (Operation::Com, (-131072, 5), (0, 0), (0o400000, 0, 0)),
    (Operation::Abs, (-131072, -131072), (0, 0), (0o400000, 0, 0)),
    // shifts
    (Operation::Als(1), (-65537, 0), (0, 0), (0o577777, 0, 0)),
    (Operation::Als(17), (2, 2), (0, 0), (2, 0, 0)),
    (
        Operation::Lls(1),
        (0, 65536),
        (0, 0),
        (0o200000, 0o377777, 0),
    ),
    (Operation::Lls(1), (-65537, 0), (0, 0), (0o577777, 0, 0)),
    // products
    (Operation::High, FULL, FULL, (0o400000, 0, 0o400000)),
    (
        Operation::Round,
        FULL,
        (-131072, -100),
        (0o400000, 0, 0o400000),
    ),
    // quotients
    (Operation::Over, (100, 131071), (-1, 1), (100, 0, 0)),
    (Operation::Over, (1, 1), (1, 4), (1, 0, 1)),
    (Operation::Over, (0, 1), (1, 4), (1, 0o377777, 1)),
    (Operation::Over, (-3, 0), (-4, -1), (0o777775, 0, 0o777777)),
];

#[test]
fn operations_that_overflow(rt: HostRuntime) {
    for &(operation, a, m, numbers) in &OVERFLOWS {
        let told = Operands {
            a: word(&rt, numbers.0),
            q: word(&rt, numbers.1),
            m: word(&rt, numbers.2),
        };
        expect_left(&rt, operation, range(&rt, a), range(&rt, m), Err(told));
    }
}

/// The set of two words.
fn pair(rt: &impl Abort, first: u32, second: u32) -> Value {
    Value::of_word(word(rt, first)).join(&Value::of_word(word(rt, second)))
}

#[test]
fn joins(rt: HostRuntime) {
    let sixteen = value(&rt, (-8, 7));
    let more = value(&rt, (-8, 8));
    expect_same(&rt, &more.few(), &None);
    let words = sixteen.few().expect(&rt, "sixteen words");
    let ends = pair(&rt, 7, 0o777770);
    expect_same(&rt, &sixteen.join(&ends), &Value::Words(words));
    expect_same(&rt, &sixteen.join(&pair(&rt, 8, 7)), &more);
}

#[test]
fn inclusions(rt: HostRuntime) {
    let sixteen = value(&rt, (-8, 7));
    let ends = pair(&rt, 7, 0o777770);
    expect_same(&rt, &ends.within(&sixteen), &true);
    expect_same(&rt, &sixteen.within(&ends), &false);
    expect_same(&rt, &value(&rt, (7, 7)).within(&ends), &true);
}

/// Parts of the range of -5 to 5.
const RANGE_PARTS: [(i32, i32, Option<(i32, i32)>); 8] = [
    (-2, 9, Some((-2, 5))),
    (-9, -5, Some((-5, -5))),
    (5, 6, Some((5, 5))),
    (-5, 5, Some((-5, 5))),
    (6, 9, None),
    (-262_143, -6, None),
    (2, 1, None),
    (i32::MIN, i32::MAX, Some((-5, 5))),
];

/// Expects the part of a set between two values.
fn expect_part<D: Domain + PartialEq + Debug>(
    rt: &impl Abort,
    whole: D,
    least: i32,
    greatest: i32,
    part: Option<D>,
) {
    let told = whole.between(least, greatest);
    expect_same(rt, &(least, greatest, told), &(least, greatest, part));
}

#[test]
fn parts_of_a_range(rt: HostRuntime) {
    let ends = (-5, 5);
    for &(least, greatest, part) in &RANGE_PARTS {
        let kept = value_if(&rt, part);
        expect_part(&rt, value(&rt, ends), least, greatest, kept);
        let part = match part {
            Some(part) => Some(range(&rt, part)),
            None => None,
        };
        expect_part(&rt, range(&rt, ends), least, greatest, part);
    }
    expect_same(&rt, &value(&rt, (-2, -1)).rest(), &None);
}

// A part of a set is a set again, also where it has one word alone.
#[test]
fn parts_of_a_set(rt: HostRuntime) {
    let words = pair(&rt, 7, 0o777770);
    let negative = Some(pair(&rt, 0o777770, 0o777770));
    let rest = Some(pair(&rt, 7, 7));
    expect_same(&rt, &words.negative(), &negative);
    expect_same(&rt, &words.rest(), &rest);
    expect_same(&rt, &Value::of_word(Word::ZERO).negative(), &None);
    expect_part(&rt, words, -9, 9, Some(words));
    expect_part(&rt, words, -8, 6, negative);
    expect_part(&rt, words, 7, 262_143, rest);
    expect_part(&rt, words, -7, 6, None);
    expect_part(&rt, words, i32::MAX, i32::MIN, None);
}

/// Ends that no range has.
const BAD_ENDS: [(i32, i32); 3] = [(3, 2), (-131073, 0), (0, 131072)];

#[test]
fn makers(rt: HostRuntime) {
    for &(least, greatest) in &BAD_ENDS {
        expect_same(&rt, &Range::of(least, greatest), &None);
    }
    expect_same(&rt, &WordSet::of(&[]), &None);
    expect_same(&rt, &WordSet::of(&[word(&rt, 2); 2]), &None);
    expect_same(&rt, &WordSet::of(&[Word::ZERO; 17]), &None);
}

/// Expects the text of a value.
fn expect_text(rt: &impl Abort, alloc: Global, value: Value, text: &str) {
    let printed = format!(in alloc; "{value}").expect(rt, "memory for a text");
    expect_same(rt, &printed.as_str(), &text);
}

#[test]
fn texts(rt: HostRuntime) {
    let alloc = rt.alloc();
    expect_text(&rt, alloc, Value::full(), "ANY");
    expect_text(&rt, alloc, value(&rt, (-98, 100)), "RANGE -98 100");
    expect_text(&rt, alloc, pair(&rt, 0, 0o404001), "WORDS 000000 404001");
}

/// The number, where it is a word's value.
fn fitting(number: i64) -> Option<i64> {
    if -131_072 <= number && number <= 131_071 {
        Some(number)
    } else {
        None
    }
}

/// The quotient by 2^17 rounded down, where the number is one of a pair.
fn high_part(number: i64) -> Option<i64> {
    fitting(number.div_euclid(131_072))
}

/// What an operation leaves in A, by whole numbers alone, and nothing where it overflows.
fn left_in_a(operation: Operation, a: i64, q: i64, m: i64) -> Option<i64> {
    let pair = a.wrapping_mul(131_072).wrapping_add(q);
    match operation {
        Operation::Add => fitting(a.wrapping_add(m)),
        Operation::Sub => fitting(a.wrapping_sub(m)),
        Operation::Com => fitting(a.wrapping_neg()),
        Operation::Abs => fitting(a.wrapping_abs()),
        Operation::Als(count) => fitting(a.wrapping_mul(1i64.wrapping_shl(count))),
        Operation::Lls(count) => high_part(pair.wrapping_mul(1i64.wrapping_shl(count))),
        Operation::Lrs(count) => high_part(pair.div_euclid(1i64.wrapping_shl(count).max(1))),
        Operation::High => high_part(a.wrapping_mul(m)),
        Operation::Round => high_part(a.wrapping_mul(m).wrapping_add(65_536)),
        Operation::Over => fitting(pair.checked_div(m)?),
    }
}

/// The least and the greatest that an operation leaves in A, of seven values from each of two on, and three low parts of Q,
/// by a walk over all of them; nothing where it overflows at some of them.
fn walked(operation: Operation, a: i64, m: i64) -> Option<(i64, i64)> {
    let mut least = i64::MAX;
    let mut greatest = i64::MIN;
    for i in 0..7i64 {
        for j in 0..7i64 {
            for q in [0, 77_777, 131_071] {
                let left = left_in_a(operation, a.wrapping_add(i), q, m.wrapping_add(j))?;
                least = least.min(left);
                greatest = greatest.max(left);
            }
        }
    }
    Some((least, greatest))
}

/// Asserts that an operation overflows at some operands, by whole numbers.
fn expect_overflowing(rt: &impl Abort, operation: Operation, words: Operands) {
    let left = left_in_a(
        operation,
        i64::from(words.a.value()),
        i64::from(words.q.number()),
        i64::from(words.m.value()),
    );
    assert!(rt; left.is_none());
}

/// The ends of an operation's answer, or nothing where it tells operands, which then overflow.
fn told(rt: &impl Abort, operation: Operation, a: i32, m: i32) -> Option<(i64, i64)> {
    let first = range(rt, (a, a.wrapping_add(6)));
    let second = range(rt, (m, m.wrapping_add(6)));
    match answer(rt, operation, &first, &second) {
        Ok(hull) => Some((
            i64::from(hull.least().value()),
            i64::from(hull.greatest().value()),
        )),
        Err(words) => {
            expect_overflowing(rt, operation, words);
            None
        }
    }
}

/// The operations whose small ranges are walked.
const WALKED: [Operation; 10] = [
    Operation::Add,
    Operation::Sub,
    Operation::Com,
    Operation::Abs,
    Operation::Als(3),
    Operation::Lls(2),
    Operation::Lrs(5),
    Operation::High,
    Operation::Round,
    Operation::Over,
];

/// A number among so many values around 0.
fn around_zero(number: i32, size: i32) -> i32 {
    number.rem_euclid(size.max(1)).wrapping_sub(size / 2)
}

/// Around how many values the first and the second ranges of a step begin: of three steps the first has small ones, the second has its
/// second ranges near 0, and the third has neither.
fn sizes_of(step: i32) -> (i32, i32) {
    match step.rem_euclid(3) {
        0 => (200, 262_000),
        1 => (262_000, 20),
        _ => (262_000, 262_000),
    }
}

#[test]
fn small_ranges_by_a_walk(rt: HostRuntime) {
    for &operation in &WALKED {
        for step in 0..120i32 {
            let (size, near) = sizes_of(step);
            let a = around_zero(step.wrapping_mul(7919), size);
            let m = around_zero(step.wrapping_mul(104_729), near);
            let ends = walked(operation, i64::from(a), i64::from(m));
            expect_same(&rt, &told(&rt, operation, a, m), &ends);
        }
    }
}
