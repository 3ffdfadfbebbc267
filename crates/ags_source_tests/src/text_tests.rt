//! Rows worked out by hand from the rules of lines, fields and numbers.

use crate::common::expect_same;
use ags_text::{
    Lines, SevenDigits, are_blanks, decimal7, octal4, octal6, read_decimal, read_octal,
    split_field, split_leading_field,
};
use std::alloc::{AllocError, Global};
use std::process::Abort;

/// The lines of a short text: for each the digit of its start, its bytes, and a bar.
fn shown_lines(alloc: Global, text: &[u8]) -> Result<Vec<u8>, AllocError> {
    let mut shown = Vec::new(alloc);
    for line in Lines::of(text) {
        shown.push(b'0' + (line.start % 10) as u8)?;
        shown.extend_from_slice(line.bytes)?;
        shown.push(b'|')?;
    }
    Ok(shown)
}

/// A text and its lines.
const LINES: [(&[u8], &[u8]); 17] = [
    (b"", b""),
    (b"a", b"0a|"),
    (b"a\n", b"0a|"),
    (b"a\r\n", b"0a|"),
    (b"a\r", b"0a|"),
    (b"\r", b""),
    (b"\n\r", b"0|"),
    (b"\n", b"0|"),
    (b"a\r\r\n", b"0a\r|"),
    (b"a\nb", b"0a|2b|"),
    (b"\n\n", b"0|1|"),
    (b"\r\r", b"0\r|"),
    (b"\ra\rb\n", b"0\ra\rb|"),
    (b"\r\nab\r\n", b"0|2ab|"),
    (b"ab\n\ncd\r\ne\r", b"0ab|3|4cd|8e|"),
    (b" ", b"0 |"),
    (b"\x0ba\n", b"0\x0ba|"),
];

#[test]
fn texts_are_cut_into_lines(rt: HostRuntime) {
    for &(text, wanted) in &LINES {
        let shown = shown_lines(rt.alloc(), text).expect(&rt, "memory for lines");
        expect_same(&rt, &(text, shown.as_slice()), &(text, wanted));
    }
}

/// A text, what it writes in octal digits, and what in decimal ones.
const DIGITS: [(&[u8], Option<u32>, Option<u32>); 20] = [
    (b"", None, None),
    (b"0", Some(0), Some(0)),
    (b"7", Some(7), Some(7)),
    (b"8", None, Some(8)),
    (b"9", None, Some(9)),
    (b"10", Some(8), Some(10)),
    (b"000007", Some(7), Some(7)),
    (b"777777", Some(262143), Some(777777)),
    (b"123456", Some(42798), Some(123456)),
    (b"17778", None, Some(17778)),
    (b"0000007", None, Some(7)),
    (b"000000000", None, Some(0)),
    (b"999999999", None, Some(999999999)),
    (b"0000000007", None, None),
    (b"1/", None, None),
    (b"1:", None, None),
    (b"1A", None, None),
    (b"-1", None, None),
    (b" 1", None, None),
    (b"1\r", None, None),
];

#[test]
fn digits_are_read(rt: HostRuntime) {
    for row in &DIGITS {
        let text = row.0;
        expect_same(&rt, &(text, read_octal(text), read_decimal(text)), row);
    }
}

/// A text, the field at its start and what stands after that, its next field and what stands after that.
const CUTS: [[&[u8]; 5]; 8] = [
    [b"", b"", b"", b"", b""],
    [b" \t", b"", b" \t", b"", b""],
    [b"ORG", b"ORG", b"", b"ORG", b""],
    [b"ORG /10", b"ORG", b" /10", b"ORG", b" /10"],
    [b"\tORG\t/10", b"", b"\tORG\t/10", b"ORG", b"\t/10"],
    [b"  A  ", b"", b"  A  ", b"A", b"  "],
    [b"A\x0bB C", b"A\x0bB", b" C", b"A\x0bB", b" C"],
    [b" \r 1", b"", b" \r 1", b"\r", b" 1"],
];

/// Texts, and whether they are blanks.
const BLANKS: [(&[u8], bool); 4] = [(b"", true), (b" \t ", true), (b" .", false), (b"\r", false)];

#[test]
fn texts_are_cut_at_blanks(rt: HostRuntime) {
    for row in &CUTS {
        let text = row[0];
        let (leading, behind_leading) = split_leading_field(text);
        let (next, behind_next) = split_field(text);
        expect_same(
            &rt,
            &[text, leading, behind_leading, next, behind_next],
            row,
        );
    }
    for &(text, blank) in &BLANKS {
        expect_same(&rt, &(text, are_blanks(text)), &(text, blank));
    }
}

/// A number and its last seven decimal digits.
const DECIMAL_DIGITS: [(u32, &str); 5] = [
    (0, "0000000"),
    (1, "0000001"),
    (4194304, "4194304"),
    (9999999, "9999999"),
    (u32::MAX, "4967295"),
];

/// A number and its four octal digits.
const FOUR_DIGITS: [(u32, &[u8; 4]); 4] = [
    (0, b"0000"),
    (8, b"0010"),
    (2048, b"4000"),
    (4095, b"7777"),
];

/// A number and its six octal digits.
const SIX_DIGITS: [(u32, &[u8; 6]); 4] = [
    (0, b"000000"),
    (7, b"000007"),
    (42798, b"123456"),
    (262143, b"777777"),
];

/// Expects the last seven decimal digits of a number, printed and as bytes.
fn expect_decimal(rt: &impl Abort, alloc: Global, number: u32, digits: &str) {
    let printed = format!(in alloc; "{}", SevenDigits(number)).expect(rt, "memory for digits");
    expect_same(
        rt,
        &(printed.as_str(), decimal7(number).as_slice()),
        &(digits, digits.as_bytes()),
    );
}

#[test]
fn digits_are_printed(rt: HostRuntime) {
    for &(number, digits) in &DECIMAL_DIGITS {
        expect_decimal(&rt, rt.alloc(), number, digits);
    }
    for &(number, digits) in &FOUR_DIGITS {
        assert!(rt; number < 4096);
        expect_same(&rt, &octal4(number), digits);
    }
    for &(number, digits) in &SIX_DIGITS {
        assert!(rt; number < 262_144);
        expect_same(&rt, &octal6(number), digits);
    }
}
