//! Sources whose lists and BES end where the memory does, and decks drawn by chance, whose answer a plain program works out in two
//! passes.

use crate::common::{assembled, expect_same};
use crate::two_passes::{Made, assemble_in_two_passes};
use ags_asm::{AssembleError, Assembled};
use std::alloc::Global;
use std::process::Abort;

/// Sources with lists and BES that have no fault: a list that ends at the last place, a BES to the memory's end, and BES of nothing.
const WITHIN: [&[u8]; 4] = [
    b" ORG 4094\n OCT 1,2",
    b" ORG 4095\nE BES 1",
    b"E BES 0\n CLA E",
    b"A BES 3\n ORG A\n DEC 1,2 A REMARK",
];

#[test]
fn lists_within_the_memory_have_no_fault(rt: HostRuntime) {
    for &source in &WITHIN {
        let is_made = assembled(&rt, rt.alloc(), source).is_ok();
        expect_same(&rt, &(source, is_made), &(source, true));
    }
}

/// The cards that a deck is drawn of.
const DRAWN: [&[u8]; 32] = [
    b"",
    b"* NONE",
    b" CLA A",
    b" CLA B-A",
    b"A ADD C,1",
    b"B TRA *+A",
    b" STO 4000-A-A",
    b"C OCT 17",
    b" DEC 5",
    b" DEC 9B0",
    b"A EQU 3",
    b"B EQU A+1",
    b"C EQU -B",
    b" ORG 0",
    b" ORG 1",
    b" ORG A",
    b" BSS 1",
    b"B BSS A",
    b" BSS B-A",
    b" ORG 4095",
    b" XYZ",
    b"C END",
    b" SUB C",
    b"A MPY B",
    b" OCT 1,2",
    b"B DEC 1,-2,3 A REMARK",
    b" DEC 1,9B0",
    b"A BES 2",
    b" BES B-A",
    b"C SYN A",
    b" OCT 1,,2",
    b" BES 1,2",
];

/// A number after another, as chance has it.
fn next_number(number: u32) -> u32 {
    number.wrapping_mul(1_664_525).wrapping_add(1_013_904_223)
}

/// A deck of one to sixteen cards, drawn by a number, and the number after it.
fn drawn(rt: &impl Abort, alloc: Global, seed: u32) -> (Vec<u8>, u32) {
    let mut number = next_number(seed);
    let mut source = Vec::new(alloc);
    for _ in 0..1 + (number >> 16) % 16 {
        number = next_number(number);
        let card = DRAWN[((number >> 16) % 32) as usize];
        assert!(rt; source.extend_from_slice(card).is_ok());
        assert!(rt; source.push(b'\n').is_ok());
    }
    (source, number)
}

/// Expects so many cards of an assembled source, and these words of them.
fn expect_words(rt: &impl Abort, made: &Assembled, cards: usize, words: &[Made]) {
    assert!(rt; made.cards.len() == cards);
    let mut wanted = words.iter();
    let mut number = 0u32;
    for card in &made.cards {
        number = number.saturating_add(1);
        assert!(rt; card.place.is_some() == (card.count > 0));
        let mut place = card.place.unwrap_or(0);
        for _ in 0..card.count {
            assert!(rt; place < 4096);
            let told = (number, place, made.image.word_at(place));
            assert!(rt; wanted.next() == Some(&told));
            place += 1;
        }
    }
    assert!(rt; wanted.next().is_none());
}

/// Expects the answer of the plain program.
fn expect_same_answer(rt: &impl Abort, alloc: Global, source: &[u8]) {
    let mut words = Vec::new(alloc);
    let wanted = assemble_in_two_passes(rt, alloc, source, &mut words);
    match (assembled(rt, alloc, source), wanted) {
        (Ok(made), Ok(cards)) => expect_words(rt, &made, cards, &words),
        (Err(AssembleError::Source(told)), Err(error)) => assert!(rt; told == error),
        _ => assert!(rt; false),
    }
}

#[test]
fn decks_drawn_by_chance_have_the_answer_of_two_passes(rt: HostRuntime) {
    let mut seed = 1969;
    for _ in 0..400 {
        let (source, next) = drawn(&rt, rt.alloc(), seed);
        expect_same_answer(&rt, rt.alloc(), &source);
        seed = next;
    }
}
