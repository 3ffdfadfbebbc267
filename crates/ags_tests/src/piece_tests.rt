//! Sources that come in pieces: wherever the deck is cut, the answer is that of the whole text.

ghost use Rattle.ags_outside.specs.ToldFile.{Untold};

use crate::command_lines::{expect_end, shelf_of};
use ags_asm::{AssembleError, Assembled, Building, Placed, SOURCE_LIMIT, assemble};
use ags_decks::{DECK, DECK_LISTING};
use ags_isa::Codes;
use ags_outside::{Pull, Shelf, SteadyShelf, Taker};
use ags_top::Status;
use std::alloc::Global;
use std::process::Abort;

/// What a source is assembled as by the standard codes, whole.
fn whole(rt: &impl Abort, alloc: Global, source: &[u8]) -> Result<Assembled, AssembleError> {
    assert!(rt; source.len() <= SOURCE_LIMIT);
    assemble(alloc, source, &Codes::standard())
}

/// The same of a source that is cut in two there, with its bytes where it has no fault.
fn in_two(
    rt: &impl Abort,
    alloc: Global,
    source: &[u8],
    cut: usize,
) -> Result<(Vec<u8>, Assembled), AssembleError> {
    assert!(rt; cut <= source.len() && source.len() <= SOURCE_LIMIT);
    let mut building = Building::new(alloc, &Codes::standard());
    building.take(&source[..cut]).expect(rt, "memory");
    building.take(&source[cut..]).expect(rt, "memory");
    building.finish()
}

/// Whether two cards have the same span, place and number of words.
fn is_same_card(one: &Placed, other: &Placed) -> bool {
    one.start == other.start
        && one.end == other.end
        && one.place == other.place
        && one.count == other.count
}

/// Whether two sources have the same cards, and equally many symbols.
fn is_same_source(one: &Assembled, other: &Assembled) -> bool {
    if one.cards.len() != other.cards.len() || one.symbols.len() != other.symbols.len() {
        return false;
    }
    one.cards
        .iter()
        .zip(&other.cards)
        .all(|(card, twin)| is_same_card(card, twin))
}

/// Whether two answers are the same: the bytes and the source, or the fault.
fn is_same_answer(
    one: &Result<(Vec<u8>, Assembled), AssembleError>,
    other: &Result<Assembled, AssembleError>,
    source: &[u8],
) -> bool {
    match (one, other) {
        (Ok((bytes, made)), Ok(other)) => bytes.as_slice() == source && is_same_source(made, other),
        (Err(AssembleError::Source(error)), Err(AssembleError::Source(other))) => error == other,
        _ => false,
    }
}

/// Expects the answer of the whole text, and its bytes where it has no fault, wherever it is cut.
fn expect_same_in_two(rt: &impl Abort, alloc: Global, source: &[u8]) {
    let wanted = whole(rt, alloc, source);
    for cut in 0..source.len() + 1 {
        let told = in_two(rt, alloc, source, cut);
        assert!(rt; is_same_answer(&told, &wanted, source), "cut at {cut}");
    }
}

/// The deck, and sources with a fault.
const SOURCES: [&str; 3] = [
    DECK,
    " CLA Y\r\n ORG 0\n OCT 1\nY EQU 1",
    " OCT 1\n HLT 1\n",
];

#[test]
fn sources_are_told_alike_wherever_they_are_cut(rt: HostRuntime) {
    for source in SOURCES {
        expect_same_in_two(&rt, rt.alloc(), source.as_bytes());
    }
}

/// Files in memory that come byte by byte.
#[derive(Drop)]
struct ByteShelf {
    held: SteadyShelf,
}

impl Shelf for ByteShelf {
    ghost told = { λ _ _. Untold };

    ghost faults = { λ _. 0 };

    ghost absences = { λ shelf. shelf.held.absences };

    fn pull(&mut self, name: &str, from: u64, into: &mut [u8]) -> Pull {
        self.held.pull(name, from, &mut into[..1])
    }
}

#[test]
fn the_deck_is_listed_byte_by_byte(rt: HostRuntime) {
    let held = shelf_of(&rt, rt.alloc(), &[("S", DECK)]);
    let mut shelf = ByteShelf { held };
    let answer = ("assemble S", Status::Done, DECK_LISTING);
    expect_end(&rt, &(), &mut shelf, 90, answer);
}
