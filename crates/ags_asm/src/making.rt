//! The words of a card, as far as the symbols are known (docs/SOURCE.md, Orders, DEC and OCT).

ghost use Rattle.std.specs.Prelude.{◌≡◌, ◌+◌, ◌≤◌, ◌<◌, ◌++◌, true, List, length, take, Some, None, OnOk, IfOk, IfErr, unsigned_abs};
ghost use Rattle.ags_symbol.specs.Symbol.{Entry};
ghost use Rattle.ags_asm.specs.Made.{IsMadeAs, WaitsAt};
ghost use Rattle.ags_asm.specs.Word.{address_fault, all_fit, decimal_words};

use crate::fix_ups::{FixUp, Made};
use ags_card::{Body, Terms};
use ags_decimal::Decimal;
use ags_isa::{Codes, Order, encode};
use ags_places::WordFault;
use ags_symbol::Symbols;
use ags_word::{LOCATIONS, Word};

/// The address that a known operand comes to.
pub(crate) fn address_of(value: i32) -> Result<u16, WordFault>
    ensures address { IfOk result (λ address. address ≡ unsigned_abs value) }
    ensures small { IfOk result (λ address. address < 4096) }
    ensures faultless { OnOk result (address_fault (Some value) ≡ None) }
    ensures fault { IfErr result (λ fault. address_fault (Some value) ≡ Some fault) }
{
    if value < 0 || value >= i32::from(LOCATIONS) {
        return Err(WordFault::AddressRange { value });
    }
    Ok(value as u16)
}

/// What the word of an order is made as, whatever pairs come after those that are known: it waits where one of its symbols isn't
/// defined yet.
pub(crate) fn make_order(
    codes: &Codes,
    symbols: &Symbols,
    number: u32,
    place: u16,
    order: Order,
    terms: &Terms,
    indexed: bool,
) -> Made
    requires { place < 4096 }
    ensures there { WaitsAt place result }
    ensures made { (later : List Entry) → IsMadeAs codes.now (symbols.now ++ later) number place (Body.Order order terms.now indexed) result }
{
    if let Some(value) = symbols.sum_of_terms(terms.items(), place) {
        return match address_of(value) {
            Ok(address) => Made::Word(encode(codes, order, indexed, address)),
            Err(fault) => Made::Fault(fault),
        };
    }
    let (sum, rest) = symbols.split(terms, place);
    Made::Waits(FixUp {
        card: number,
        place,
        order,
        indexed,
        sum,
        rest,
    })
}

/// Puts the words of decimals into a list from a place of it on, up to the first that doesn't fit: whether each does.
pub(crate) fn make_decimals(numbers: &[Decimal], words: &mut [Word], at: usize) -> bool
    requires { at + length numbers.now ≤ length words.old }
    ensures fit { result ≡ all_fit numbers.now }
    ensures made { result ≡ true → take (at + length numbers.now) words.new ≡ take at words.old ++ decimal_words numbers.now }
{
    let [first, rest @ ..] = numbers else {
        return true;
    };
    let Some(word) = ags_decimal::word(first) else {
        return false;
    };
    words[at] = word;
    make_decimals(rest, words, at + 1)
}
