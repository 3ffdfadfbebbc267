//! The plain answer of an assembly, as docs/SOURCE.md says it: all lines are read, then all cards placed, then all words made over
//! all symbols. It reads each line as often as its card is asked for, and is slow.

use ags_asm::{SourceError, SourceKind, WordFault};
use ags_card::{Body, Card, read_card};
use ags_isa::{Codes, encode};
use ags_places::{Unplaced, count_of, is_end, place_card};
use ags_symbol::Symbols;
use ags_text::Lines;
use ags_word::Word;
use std::alloc::Global;
use std::process::Abort;

/// A card's number, and the place and the word of one of its words.
pub(crate) type Made = (u32, u16, Word);

/// Reads the lines of a source up to and with the first END, or tells the first that is no card.
fn read_each(source: &[u8]) -> Result<(), SourceError> {
    let mut number = 0u32;
    for line in Lines::of(source) {
        number = number.saturating_add(1);
        match read_card(line.bytes) {
            Ok(card) => {
                if is_end(&card.body) {
                    return Ok(());
                }
            }
            Err(fault) => {
                let kind = SourceKind::Card(fault);
                return Err(SourceError { card: number, kind });
            }
        }
    }
    Ok(())
}

/// The card of a line that is one.
fn card_of(rt: &impl Abort, line: &[u8]) -> Card {
    read_card(line).ok().expect(rt, "a line that is a card")
}

/// Adds the places of the cards, and their symbols, or tells the first card that can't be placed.
fn place_each(
    rt: &impl Abort,
    source: &[u8],
    symbols: &mut Symbols,
    places: &mut Vec<u16>,
) -> Result<(), SourceError> {
    let mut at = 0u16;
    let mut number = 0u32;
    for line in Lines::of(source) {
        number = number.saturating_add(1);
        let card = card_of(rt, line.bytes);
        assert!(rt; at <= 4096 && places.push(at).is_ok());
        match place_card(symbols, at, number, &card) {
            Ok(next) => at = next,
            Err(Unplaced::Fault(fault)) => {
                let kind = SourceKind::Place(fault);
                return Err(SourceError { card: number, kind });
            }
            Err(Unplaced::NoMemory) => assert!(rt; false),
        }
        if is_end(&card.body) {
            break;
        }
    }
    Ok(())
}

/// One of the words of a card at a place, over all symbols.
fn word_of(
    rt: &impl Abort,
    symbols: &Symbols,
    at: u16,
    body: &Body,
    position: usize,
) -> Result<Word, WordFault> {
    assert!(rt; at <= 4096);
    match body {
        Body::Order {
            order,
            terms,
            indexed,
        } => {
            let value = symbols.value_of(terms, at).ok_or(WordFault::Undefined)?;
            if value < 0 || value > 4095 {
                return Err(WordFault::AddressRange { value });
            }
            Ok(encode(&Codes::standard(), *order, *indexed, value as u16))
        }
        Body::Dec(numbers) => {
            let number = numbers.items().get(position).expect(rt, "a decimal");
            ags_decimal::word(number).ok_or(WordFault::ValueRange)
        }
        Body::Oct(words) => Ok(*words.items().get(position).expect(rt, "an octal word")),
        Body::Comment | Body::Org(_) | Body::Equ(_) | Body::Bss(_) | Body::Bes(_) | Body::End => {
            panic!(rt; "a card without words")
        }
    }
}

/// The number of the card that has a word at this place.
fn taker_of(words: &[Made], place: u16) -> Option<u32> {
    for (number, other, _) in words {
        if *other == place {
            return Some(*number);
        }
    }
    None
}

/// Adds the words of a card of this number at its place, or tells the card's fault: that of a word, or else which card has the least
/// of the places that is taken.
fn make_card(
    rt: &impl Abort,
    symbols: &Symbols,
    number: u32,
    at: u16,
    body: &Body,
    words: &mut Vec<Made>,
) -> Result<(), WordFault> {
    let count = count_of(body);
    for position in 0..count {
        word_of(rt, symbols, at, body, usize::from(position))?;
    }
    for position in 0..count {
        let place = at.saturating_add(position);
        if let Some(first) = taker_of(words, place) {
            return Err(WordFault::PlaceTwice { first });
        }
        let word = word_of(rt, symbols, at, body, usize::from(position))?;
        assert!(rt; words.push((number, place, word)).is_ok());
    }
    Ok(())
}

/// Adds the words of all cards at their places, or tells the first card at fault.
fn make_each(
    rt: &impl Abort,
    source: &[u8],
    symbols: &Symbols,
    places: &[u16],
    words: &mut Vec<Made>,
) -> Result<(), SourceError> {
    let mut lines = Lines::of(source);
    let mut number = 0u32;
    for &at in places {
        number = number.saturating_add(1);
        let line = lines.next().expect(rt, "a line of each card");
        let card = card_of(rt, line.bytes);
        if let Err(fault) = make_card(rt, symbols, number, at, &card.body, words) {
            let kind = SourceKind::Word(fault);
            return Err(SourceError { card: number, kind });
        }
    }
    Ok(())
}

/// How many cards a source has, or its first fault. The words of the cards are added, one after the other.
pub(crate) fn assemble_in_two_passes(
    rt: &impl Abort,
    alloc: Global,
    source: &[u8],
    words: &mut Vec<Made>,
) -> Result<usize, SourceError> {
    read_each(source)?;
    let mut symbols = Symbols::new(alloc);
    let mut places = Vec::new(alloc);
    place_each(rt, source, &mut symbols, &mut places)?;
    make_each(rt, source, &symbols, &places, words)?;
    Ok(places.len())
}
