//! The end of a source: the orders that wait get their words.

ghost use Rattle.std.specs.Prelude.{◌≡◌, ◌<◌, pos, List, [], None, Some, All, OnOk, IfOk, IfErr, unsigned_abs, unwrap_or};
ghost use Rattle.ags_text.specs.Fault.{first_fault};
ghost use Rattle.ags_card.specs.declared.cards.Card.{Card};
ghost use Rattle.ags_image.specs.Image.{IsImage, IsImageOf};
ghost use Rattle.ags_asm.specs.HalfMade.{IsHalfMade, closed_into};
ghost use Rattle.ags_asm.specs.Source.{placed_words};
ghost use Rattle.ags_asm.specs.Waiting.{closed_sum, closing_fault};
ghost use Rattle.ags_asm.specs.Word.{address_fault, definitions, word_fault};

use crate::fix_ups::FixUp;
use crate::half_words::HalfWords;
use crate::making::address_of;
use ags_image::Image;
use ags_isa::{Codes, encode};
use ags_places::WordFault;
use ags_symbol::Symbols;

/// What the operand of an order that waited comes to, where its symbols are defined.
fn closing_sum(symbols: &Symbols, fix_up: &FixUp) -> Option<i32>
    ensures { result ≡ closed_sum symbols.now fix_up.now }
{
    let rest = symbols.sum_of_terms(fix_up.rest.items(), fix_up.place)?;
    Some(fix_up.sum + rest)
}

/// The address that an order that waited comes to.
fn close_address(symbols: &Symbols, fix_up: &FixUp) -> Result<u16, WordFault>
    ensures address { IfOk result (λ address. address ≡ unsigned_abs (unwrap_or (closed_sum symbols.now fix_up.now) (pos 0))) }
    ensures small { IfOk result (λ address. address < 4096) }
    ensures faultless { OnOk result (address_fault (closed_sum symbols.now fix_up.now) ≡ None) }
    ensures fault { IfErr result (λ fault. address_fault (closed_sum symbols.now fix_up.now) ≡ Some fault) }
{
    match closing_sum(symbols, fix_up) {
        Some(sum) => address_of(sum),
        None => Err(WordFault::Undefined),
    }
}

/// Gives the orders that wait their words, or finds the first card with a fault.
fn close_all(
    codes: &Codes,
    symbols: &Symbols,
    waiting: &[FixUp],
    image: &mut Image,
) -> Result<(), (u32, WordFault)>
    requires within { All (λ waiting. waiting.place < 4096) waiting.now }
    ensures faultless { OnOk result (closing_fault symbols.now waiting.now ≡ None) }
    ensures fault { IfErr result (λ found. closing_fault symbols.now waiting.now ≡ Some found) }
    ensures closed { OnOk result (image.new ≡ closed_into codes.now symbols.now image.old waiting.now) }
    ensures image { IsImage image.old → IsImage image.new }
{
    for fix_up in waiting {
        match close_address(symbols, fix_up) {
            Ok(address) => {
                let word = encode(codes, fix_up.order, fix_up.indexed, address);
                image.set(fix_up.place, word);
            }
            Err(fault) => return Err((fix_up.card, fault)),
        }
    }
    Ok(())
}

impl HalfWords {
    /// Closes the words of all cards, over all symbols: tells the first fault of the phase of words, and its card, where there is one.
    pub(crate) fn close(&mut self, codes: &Codes, symbols: &Symbols) -> Option<(u32, WordFault)>
        requires within { All (λ waiting. waiting.place < 4096) self.old.waiting.items }
        ensures fault { (cards before : List Card) → IsHalfMade codes.now symbols.now cards before [] self.old
            → first_fault (word_fault symbols.now) [] cards ≡ result }
        ensures image { (cards before : List Card) → IsHalfMade codes.now symbols.now cards before [] self.old → result ≡ None
            → IsImageOf (placed_words (definitions codes.now symbols.now cards)) self.new.image }
    {
        match close_all(codes, symbols, &self.waiting, &mut self.image) {
            Ok(()) => self.met,
            Err(found) => Some(found),
        }
    }
}
