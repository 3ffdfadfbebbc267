//! Lines worked out by hand from the rules of cards.

use crate::common::expect_same;
use ags_card::{Body, Card, Name, is_comment_card, read_card, read_card_into};
use ags_word::Word;

/// How many constants a card has, and the first of their words.
fn constants_of(line: &[u8]) -> Option<(usize, Option<Word>)> {
    let Ok(card) = read_card(line) else {
        return None;
    };
    match &card.body {
        Body::Oct(words) => Some((words.items().len(), words.items().first().copied())),
        Body::Dec(numbers) => match numbers.items() {
            [first, ..] => Some((numbers.items().len(), ags_decimal::word(first))),
            [] => None,
        },
        _ => None,
    }
}

/// Lines, each with the number of its constants, and the first one's word. No card has room for more than 58.
const CONSTANTS: [(&[u8], usize, u32); 20] = [
    (b" DEC 1.5B3", 1, 0o060000),
    (b" DEC -1B0", 1, 0o400000),
    (b" DEC 0.5B17", 1, 0o000001),
    (b" DEC -0.5B17", 1, 0o777777),
    (b"A1 DEC 3E-1B2", 1, 0o023146),
    (b" DEC -0", 1, 0),
    (b" OCT 7", 1, 7),
    (b"OCT OCT +000017 OCT", 1, 0o17),
    (b" OCT -1", 1, 0o777777),
    (b" OCT -777777", 1, 1),
    (b" OCT -400000", 1, 0o400000),
    (b" OCT -0", 1, 0),
    (b" DEC 1", 1, 1),
    (b" DEC 1,2.5,-3E-1B2", 3, 1),
    (b" OCT 1,2", 2, 1),
    (b" OCT 1 ,2", 1, 1),
    (b"\tOCT\t-1,+2,-0\tA,B", 3, 0o777777),
    (b"A OCT 1,2,3 ,4", 3, 1),
    (
        b" OCT 1,1,1,1,1,1,1,1,1,1,1,1,1,1,1,1,1,1,1,1,1,1,1,1,1,1,1,1,1,1,1,1,1,1,1,1,1,1,1,1,1,1,1,1,1,1,1,1,1,1,1,1,1,1,1,1,1,1",
        58,
        1,
    ),
    (
        b" DEC 1,1,1,1,1,1,1,1,1,1,1,1,1,1,1,1,1,1,1,1,1,1,1,1,1,1,1,1,1,1,1,1,1,1,1,1,1,1,1,1,1,1,1,1,1,1,1,1,1,1,1,1,1,1,1,1,1,1",
        58,
        1,
    ),
];

#[test]
fn constants_stand_in_lists(rt: HostRuntime) {
    for &(line, count, number) in &CONSTANTS {
        let wanted = Some((count, Word::of(number)));
        expect_same(&rt, &(line, constants_of(line)), &(line, wanted));
    }
}

/// What a line asks for that is read in place of a card, and how many terms or constants it has; nothing where it has a fault.
fn kind_in_place(card: &mut Card, line: &[u8]) -> Option<(&'static str, usize)> {
    if read_card_into(card, line).is_err() {
        return None;
    }
    Some(match &card.body {
        Body::Comment => ("comment", 0),
        Body::Order { terms, .. } => ("order", terms.items().len()),
        Body::Org(terms) => ("org", terms.items().len()),
        Body::Equ(terms) => ("equ", terms.items().len()),
        Body::Bss(terms) => ("bss", terms.items().len()),
        Body::Bes(terms) => ("bes", terms.items().len()),
        Body::Dec(numbers) => ("dec", numbers.items().len()),
        Body::Oct(words) => ("oct", words.items().len()),
        Body::End => ("end", 0),
    })
}

/// Lines that are read in the place of one another, one after the other, each with what it asks for: a kind follows itself and
/// others, with more and with fewer terms.
const IN_PLACE: [(&[u8], &str, usize); 15] = [
    (b" CLA 1+2+3", "order", 3),
    (b" CLA 1", "order", 1),
    (b" COM", "order", 1),
    (b"A EQU 1-2", "equ", 2),
    (b"B SYN A", "equ", 1),
    (b" ORG A+1", "org", 2),
    (b" ORG 1", "org", 1),
    (b"* NOTHING", "comment", 0),
    (b" BSS 2", "bss", 1),
    (b" BES 2-A", "bes", 2),
    (b" BES 2", "bes", 1),
    (b" DEC 1,2", "dec", 2),
    (b" DEC 1", "dec", 1),
    (b" OCT 1,2,3", "oct", 3),
    (b"E END", "end", 0),
];

/// Lines with a fault, which stand between each of these lines and itself.
const BETWEEN: [&[u8]; 2] = [b" CLA 1+", b" OCT 1,,2"];

#[test]
fn lines_are_read_in_place_of_others(rt: HostRuntime) {
    let mut card = Card::comment();
    for &(line, kind, count) in &IN_PLACE {
        let wanted = (line, Some((kind, count)));
        expect_same(&rt, &(line, kind_in_place(&mut card, line)), &wanted);
        for &faulty in &BETWEEN {
            expect_same(
                &rt,
                &(line, kind_in_place(&mut card, faulty)),
                &(line, None),
            );
        }
        expect_same(&rt, &(line, kind_in_place(&mut card, line)), &wanted);
    }
}

/// Lines that keep to their form.
const FAULTLESS: [&[u8]; 13] = [
    b"",
    b" \t",
    b"*",
    b"* ANY,\t/~",
    b"END END",
    b" END 1,2 8",
    b"ORG ORG ORG",
    b"A EQU -1+A",
    b" BSS 0",
    b"E BES 0",
    b"A SYN -1+A",
    b" DEC 1,2",
    &[b' '; 120],
];

#[test]
fn lines_that_keep_to_their_form_have_no_fault(rt: HostRuntime) {
    for &line in &FAULTLESS {
        expect_same(&rt, &(line, read_card(line).is_ok()), &(line, true));
    }
}

/// A text, and whether it is a symbol.
const NAMES: [(&[u8], bool); 7] = [
    (b"A", true),
    (b"1A2B3C", true),
    (b"ORG", true),
    (b"", false),
    (b"123456", false),
    (b"ABCDEFG", false),
    (b"a", false),
];

/// Lines, and whether each is a comment without a fault.
const COMMENTS: [(&[u8], bool); 8] = [
    (b"", true),
    (b" \t ", true),
    (b"*", true),
    (b"* CLA 0", true),
    (b" * CLA 0", false),
    (b" CLA 0", false),
    (b"*\x7f", false),
    (&[b'*'; 121], false),
];

#[test]
fn symbols_and_comments_are_told(rt: HostRuntime) {
    for &(text, is_name) in &NAMES {
        expect_same(&rt, &(text, Name::of(text).is_some()), &(text, is_name));
    }
    for &(line, comment) in &COMMENTS {
        expect_same(&rt, &(line, is_comment_card(line)), &(line, comment));
    }
}
