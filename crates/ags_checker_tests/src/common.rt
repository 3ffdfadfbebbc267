//! What several tests make, and what they assert.

use ags_domain::{Domain, Range, Value, WordSet};
use ags_image::Image;
use ags_row::{Limits, Link, Post, Row, RowParts, covers};
use ags_word::Word;
use std::alloc::Global;
use std::fmt::Debug;
use std::process::Abort;

/// The word of a number.
pub(crate) fn word(rt: &impl Abort, number: u32) -> Word {
    Word::of(number).expect(rt, "the number of a word")
}

/// The range of two values.
pub(crate) fn range(rt: &impl Abort, ends: (i32, i32)) -> Range {
    Range::of(ends.0, ends.1).expect(rt, "the ends of a range")
}

/// The value that is a range of two values.
pub(crate) fn value(rt: &impl Abort, ends: (i32, i32)) -> Value {
    Value::Range(range(rt, ends))
}

/// The same, where the ends are told.
pub(crate) fn value_if(rt: &impl Abort, ends: Option<(i32, i32)>) -> Option<Value> {
    match ends {
        Some(ends) => Some(value(rt, ends)),
        None => None,
    }
}

/// An image of some words, which stand from a place on.
pub(crate) fn image_of(rt: &impl Abort, alloc: Global, from: u16, words: &[u32]) -> Image {
    let mut image = Image::new(alloc).expect(rt, "memory for an image");
    let mut place = from;
    for number in words {
        assert!(rt; place < 4095);
        image.set(place, word(rt, *number));
        place += 1;
    }
    image
}

/// Limits that hold each word.
pub(crate) fn full_limits<D: Domain>(rt: &impl Abort, alloc: Global) -> Limits<D> {
    Limits::new(alloc).expect(rt, "memory for limits")
}

/// A value, as a constant says it: it holds no reference, since a table of those costs the check much.
#[derive(Clone, Copy)]
pub(crate) enum Held {
    /// Every word.
    Any,
    /// The words between two values.
    Range(i32, i32),
    /// One word, by its number.
    Word(u32),
    /// Two words.
    Pair(u32, u32),
    /// Sixteen words that follow one another, by the number of the first.
    Sixteen(u32),
}

/// The words of numbers that ascend, as a value.
fn words(rt: &impl Abort, numbers: &[u32]) -> Value {
    assert!(rt; numbers.len() <= 16);
    let mut words = [Word::ZERO; 16];
    for place in 0..numbers.len() {
        words[place] = Word::of(numbers[place]).expect(rt, "a word");
    }
    Value::Words(WordSet::of(&words[..numbers.len()]).expect(rt, "some words that ascend"))
}

/// The value that is said.
pub(crate) fn value_of(rt: &impl Abort, held: Held) -> Value {
    match held {
        Held::Any => Value::full(),
        Held::Range(least, greatest) => {
            Value::Range(Range::of(least, greatest).expect(rt, "the ends of a range"))
        }
        Held::Word(number) => words(rt, &[number]),
        Held::Pair(first, second) => words(rt, &[first, second]),
        Held::Sixteen(first) => {
            let mut numbers = [first; 16];
            for place in 0..16usize {
                numbers[place] = first.wrapping_add(place as u32);
            }
            words(rt, &numbers)
        }
    }
}

/// One thing that limits say.
#[derive(Clone, Copy)]
pub(crate) enum Limit {
    /// What an erasable cell holds.
    Cell(u16, Held),
    /// What an input register does.
    Input(u16, Held),
    /// What an output register does.
    Output(u16, Held),
    /// That a location is named as a place of an overflow.
    Place(u16),
}

/// Limits that hold each word, but for what is said.
pub(crate) fn limits_of(rt: &impl Abort, alloc: Global, said: &[Limit]) -> Limits<Value> {
    let mut limits = full_limits(rt, alloc);
    for &limit in said {
        match limit {
            Limit::Cell(address, held) => {
                assert!(rt; address < 2048);
                limits.set_cell(address, value_of(rt, held));
            }
            Limit::Input(address, held) => {
                assert!(rt; address < 4096);
                limits.set_input(address, value_of(rt, held));
            }
            Limit::Output(address, held) => {
                assert!(rt; address < 4096);
                limits.set_output(address, value_of(rt, held));
            }
            Limit::Place(location) => {
                assert!(rt; location < 4096);
                limits.name_place(location);
            }
        }
    }
    limits
}

/// Adds one to a list.
pub(crate) fn add<T: Drop>(rt: &impl Abort, list: &mut Vec<T>, one: T) {
    assert!(rt; list.push(one).is_ok());
}

/// The row of parts that make one.
pub(crate) fn row_of<D: Domain>(rt: &impl Abort, parts: RowParts<D>) -> Row<D> {
    Row::of(parts).expect(rt, "the parts of a row")
}

/// The parts of a row where A and Q may hold any word, with index 0 and some indicators, that names no cell.
pub(crate) fn open_parts(
    alloc: Global,
    location: u16,
    v: [bool; 2],
    link: Option<Link>,
) -> RowParts<Value> {
    RowParts {
        location,
        a: Value::full(),
        q: Value::full(),
        x: [true, false, false, false, false, false, false, false],
        v,
        at: Vec::new(alloc),
        link,
    }
}

/// Whether a row covers a post of another, where each cell may hold any word.
pub(crate) fn is_covered_by(
    rt: &impl Abort,
    alloc: Global,
    target: &Row<Value>,
    base: &Row<Value>,
    post: &Post<Value>,
) -> bool {
    covers(target, base, post, &full_limits(rt, alloc))
}

/// Asserts that what is told is what is wanted.
pub(crate) fn expect_same<T: PartialEq + Debug>(rt: &impl Abort, told: &T, wanted: &T) {
    assert_eq!(rt; *told, *wanted);
}
