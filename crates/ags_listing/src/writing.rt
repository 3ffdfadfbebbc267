//! The writer of listings.

ghost use Rattle.std.specs.Prelude.{◌≡◌, ◌+◌, ◌≤◌, ◌<◌, ◌++◌, ◌^◌, length, codes, Some, None, OnOk, OnErr};
ghost use Rattle.ags_text.specs.Numeral.{decimal7_text};
ghost use Rattle.ags_outside.specs.Count.{HasCause};
ghost use Rattle.ags_outside.specs.Send.{is_write_fault};
ghost use Rattle.ags_outside.specs.Sink.{appended, WroteFront};
ghost use Rattle.ags_asm.specs.Source.{AreSpans, card_words};
ghost use Rattle.ags_image.specs.Image.{IsImage, word_at};
ghost use Rattle.ags_listing.specs.Listing.{AreCardsOf, columns, listing, listing_line};
ghost use Rattle.ags_listing.specs.PlacedListing.{card_lines, further_lines, placed_listing};
ghost use Rattle.ags_places.specs.Limit.{source_limit};

use ags_asm::{Assembled, Placed};
use ags_image::Image;
use ags_outside::{SendError, Sink, send};
use ags_text::{decimal7, octal4};
use ags_word::{LOCATIONS, Word};
use std::alloc::{AllocError, Global};

/// What stands before the text in the line of a card without a word: its number, and blanks. All of it is made at once, since a
/// source may have four million lines.
fn blank_front(number: u32) -> [u8; 20]
    ensures { result ≡ decimal7_text number ++ codes " " ++ columns None ++ codes " " }
{
    let [n1, n2, n3, n4, n5, n6, n7] = decimal7(number);
    [
        n1, n2, n3, n4, n5, n6, n7, b' ', b' ', b' ', b' ', b' ', b' ', b' ', b' ', b' ', b' ',
        b' ', b' ', b' ',
    ]
}

/// What stands before the text in the line of a word: its card's number, its place and it, each with a blank after it.
fn word_front(number: u32, place: u32, word: Word) -> [u8; 20]
    ensures { result ≡ decimal7_text number ++ codes " " ++ columns (Some (record { place = place; word = word })) ++ codes " " }
{
    let [n1, n2, n3, n4, n5, n6, n7] = decimal7(number);
    let [p1, p2, p3, p4] = octal4(place);
    let [w1, w2, w3, w4, w5, w6] = word.octal6();
    [
        n1, n2, n3, n4, n5, n6, n7, b' ', p1, p2, p3, p4, b' ', w1, w2, w3, w4, w5, w6, b' ',
    ]
}

/// The word that an image has at a place, and 000000 where it has none.
fn word_there(image: &Image, place: u32) -> Word
    requires { IsImage image.now }
    ensures { result ≡ word_at image.now place }
{
    if place < u32::from(LOCATIONS) {
        image.word_at(place as u16)
    } else {
        Word::ZERO
    }
}

/// Adds a line of this front and this text.
fn push_line(line: &mut Vec<u8>, front: &[u8], text: &[u8]) -> Result<(), AllocError>
    ensures { OnOk result (line.new.items ≡ line.old.items ++ (front.now ++ text.now ++ codes "\n")) }
{
    line.extend_from_slice(front)?;
    line.extend_from_slice(text)?;
    line.push(b'\n')?;
    Ok(())
}

/// Sends a line of this front and this text. `line` is room for it, whatever is in it.
fn send_line<K: Sink>(
    out: &mut K,
    line: &mut Vec<u8>,
    front: &[u8],
    text: &[u8],
) -> Result<(), SendError>
    ensures sent { OnOk result (K.told out.new ≡ appended (K.told out.old) (front.now ++ text.now ++ codes "\n")) }
    ensures front { OnErr result (WroteFront (K.told out.old) (K.told out.new) (front.now ++ text.now ++ codes "\n")) }
    ensures faults { HasCause (K.faults out.old) (K.faults out.new) (is_write_fault result) }
{
    line.clear();
    if push_line(line, front, text).is_err() {
        return Err(SendError::NoMemory);
    }
    send(out, line)
}

/// Sends the line of a card without a word.
fn send_blank<K: Sink>(
    out: &mut K,
    line: &mut Vec<u8>,
    number: u32,
    text: &[u8],
) -> Result<(), SendError>
    ensures sent { OnOk result (K.told out.new ≡ appended (K.told out.old) (listing_line (record { number = number; placed = None; text = text.now }))) }
    ensures front { OnErr result (WroteFront (K.told out.old) (K.told out.new) (listing_line (record { number = number; placed = None; text = text.now }))) }
    ensures faults { HasCause (K.faults out.old) (K.faults out.new) (is_write_fault result) }
{
    send_line(out, line, &blank_front(number), text)
}

/// Sends the line of a word.
fn send_word<K: Sink>(
    out: &mut K,
    line: &mut Vec<u8>,
    image: &Image,
    number: u32,
    place: u32,
    text: &[u8],
) -> Result<(), SendError>
    requires { IsImage image.now }
    ensures sent { OnOk result (K.told out.new ≡ appended (K.told out.old) (listing_line (record { number = number; placed = Some (record { place = place; word = word_at image.now place }); text = text.now }))) }
    ensures front { OnErr result (WroteFront (K.told out.old) (K.told out.new) (listing_line (record { number = number; placed = Some (record { place = place; word = word_at image.now place }); text = text.now }))) }
    ensures faults { HasCause (K.faults out.old) (K.faults out.new) (is_write_fault result) }
{
    let front = word_front(number, place, word_there(image, place));
    send_line(out, line, &front, text)
}

/// Sends the lines of so many words from a place on, without a text.
fn send_further<K: Sink>(
    out: &mut K,
    line: &mut Vec<u8>,
    image: &Image,
    number: u32,
    place: u32,
    count: u16,
) -> Result<(), SendError>
    requires image { IsImage image.now }
    requires room { place + count < 2 ^ 32 }
    ensures sent { OnOk result (K.told out.new ≡ appended (K.told out.old) (further_lines image.now number place count)) }
    ensures front { OnErr result (WroteFront (K.told out.old) (K.told out.new) (further_lines image.now number place count)) }
    ensures faults { HasCause (K.faults out.old) (K.faults out.new) (is_write_fault result) }
{
    if count == 0 {
        return Ok(());
    }
    send_word(out, line, image, number, place, b"")?;
    send_further(out, line, image, number, place + 1, count - 1)
}

/// Sends a card's lines. `line` is room for each of them, whatever is in it.
fn send_card<K: Sink>(
    out: &mut K,
    line: &mut Vec<u8>,
    source: &[u8],
    image: &Image,
    number: u32,
    card: &Placed,
) -> Result<(), SendError>
    requires image { IsImage image.now }
    requires ordered { card.now.start ≤ card.now.end }
    requires within { card.now.end ≤ length source.now }
    ensures sent { OnOk result (K.told out.new ≡ appended (K.told out.old) (card_lines source.now image.now number card.now)) }
    ensures front { OnErr result (WroteFront (K.told out.old) (K.told out.new) (card_lines source.now image.now number card.now)) }
    ensures faults { HasCause (K.faults out.old) (K.faults out.new) (is_write_fault result) }
{
    let text = &source[card.start as usize..card.end as usize];
    let Some(place) = card.place else {
        return send_blank(out, line, number, text);
    };
    if card.count == 0 {
        return send_blank(out, line, number, text);
    }
    let place = u32::from(place);
    send_word(out, line, image, number, place, text)?;
    send_further(out, line, image, number, place + 1, card.count - 1)
}

/// Sends the lines of the cards, one at a time.
fn send_cards<K: Sink>(
    alloc: Global,
    source: &[u8],
    image: &Image,
    placed: &[Placed],
    out: &mut K,
) -> Result<(), SendError>
    requires image { IsImage image.now }
    requires short { length source.now ≤ source_limit }
    requires spans { AreSpans 0 (length source.now) placed.now }
    ensures sent { OnOk result (K.told out.new ≡ appended (K.told out.old) (placed_listing source.now image.now 1 placed.now)) }
    ensures front { OnErr result (WroteFront (K.told out.old) (K.told out.new) (placed_listing source.now image.now 1 placed.now)) }
    ensures faults { HasCause (K.faults out.old) (K.faults out.new) (is_write_fault result) }
{
    let mut line = Vec::new(alloc);
    for (index, card) in placed.iter().enumerate() {
        send_card(out, &mut line, source, image, index as u32 + 1, card)?;
    }
    Ok(())
}

/// Sends the listing of a source, a line at a time (docs/SOURCE.md, Listing): `made` is what was assembled of its bytes.
/// `WriteFault` comes only where the sink counted a fault; `NoMemory` may come at any source, and says nothing of it. After
/// either the sink took a front of the listing.
pub fn send_listing<K: Sink>(
    alloc: Global,
    bytes: &[u8],
    made: &Assembled,
    out: &mut K,
) -> Result<(), SendError>
    requires { AreCardsOf bytes.now made.now }
    ensures sent { OnOk result (K.told out.new ≡ appended (K.told out.old) (listing bytes.now (card_words made.now))) }
    ensures front { OnErr result (WroteFront (K.told out.old) (K.told out.new) (listing bytes.now (card_words made.now))) }
    ensures faults { HasCause (K.faults out.old) (K.faults out.new) (is_write_fault result) }
{
    let _first_word = made.image.word_at(0);
    send_cards(alloc, bytes, &made.image, &made.cards, out)
}
