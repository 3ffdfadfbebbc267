//! Words, their numbers and values, and their octal digits.

use crate::common::{cell, expect_same};
use ags_word::Word;
use std::process::Abort;

/// The word of a value.
fn word(rt: &impl Abort, value: i32) -> Word {
    Word::from_value(value).expect(rt, "the value of a word")
}

/// Numbers of words, and their values.
const NUMBERS: [(u32, i32); 6] = [
    (0o000000, 0),
    (0o000001, 1),
    (0o377777, 131071),
    (0o400000, -131072),
    (0o400001, -131071),
    (0o777777, -1),
];

/// Values that no word has.
const NO_VALUES: [i32; 4] = [-131_073, 131_072, i32::MIN, i32::MAX];

/// Numbers that no word has.
const NO_NUMBERS: [u32; 2] = [0o1000000, u32::MAX];

#[test]
fn numbers_and_values(rt: HostRuntime) {
    for &(number, value) in &NUMBERS {
        expect_same(&rt, &(number, cell(&rt, number).value()), &(number, value));
        expect_same(&rt, &(word(&rt, value).number(), value), &(number, value));
    }
    expect_same(&rt, &Word::ZERO.number(), &0);
    for &value in &NO_VALUES {
        expect_same(&rt, &(value, Word::from_value(value)), &(value, None));
    }
    for &number in &NO_NUMBERS {
        expect_same(&rt, &(number, Word::of(number)), &(number, None));
    }
}

/// Numbers of words, and their six octal digits, which are read as that word.
const DIGITS: [(u32, &[u8; 6]); 3] = [(0, b"000000"), (0o1750, b"001750"), (0o777777, b"777777")];

/// Other texts, and the number of the word that each is read as, if it is one.
const TEXTS: [(&[u8], Option<u32>); 6] = [
    (b"17", Some(0o17)),
    (b"", None),
    (b"0000000", None),
    (b"8", None),
    (b"-1", None),
    (b" 1", None),
];

#[test]
fn octal_digits(rt: HostRuntime) {
    for &(number, digits) in &DIGITS {
        let word = cell(&rt, number);
        expect_same(
            &rt,
            &(word.octal6(), Word::read_octal(digits)),
            &(*digits, Some(word)),
        );
    }
    for &(text, number) in &TEXTS {
        let read = Word::read_octal(text).map(Word::number);
        expect_same(&rt, &(text, read), &(text, number));
    }
}
