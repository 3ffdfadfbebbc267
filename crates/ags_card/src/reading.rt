//! From a line to its card or its fault (docs/SOURCE.md, Cards).

ghost use Rattle.std.specs.Prelude.{◌≡◌, ◌≤◌, ◌==◌, ◌&&◌, length, codes, nat_eq, nat_lt, true, Ok, Err, OnOk, IfErr};
ghost use Rattle.std.specs.List.{list_all};
ghost use Rattle.std.specs.Cmp.Lexicographic.{pointwise};
ghost use Rattle.ags_card.specs.Spelling.{comment_card, is_allowed};
ghost use Rattle.ags_card.specs.Reading.{is_comment, fits_symbol, fields_reading, reading};

use crate::bodies::read_body;
use crate::cards::{Card, CardFault};
use crate::fields::split_fields;
use crate::names::{Name, is_symbol};
use crate::operations::operation_named;
use ags_text::are_blanks;

/// The most bytes of a card.
const MOST_BYTES: usize = 120;

/// Whether each byte may stand on a card: a tab, or a character from the space to the tilde.
fn are_allowed(line: &[u8]) -> bool
    ensures { result ≡ list_all is_allowed line.now }
{
    line.iter().all(|byte| matches!(*byte, b'\t' | b' '..=b'~'))
}

/// Whether a line is a comment: it has nothing but blanks, or an asterisk in column 1.
fn is_comment(line: &[u8]) -> bool
    ensures { result ≡ is_comment line.now }
{
    match line {
        [b'*', ..] => true,
        _ => are_blanks(line),
    }
}

/// Whether a line is a comment without a fault. So much is told without room for a card, since most lines may be comments.
#[tactic(auto, unfolding(crate::specs::Reading::reading))]
pub fn is_comment_card(line: &[u8]) -> bool
    ensures exact { result ≡ (is_comment line.now && (nat_lt (length line.now) 121 && list_all is_allowed line.now)) }
    ensures comment { result ≡ true → reading line.now ≡ Ok comment_card }
{
    is_comment(line) && line.len() <= MOST_BYTES && are_allowed(line)
}

/// Whether a text is the name of EQU.
fn is_equ(operation: &[u8]) -> bool
    ensures { result ≡ pointwise nat_eq operation.now (codes "EQU") }
{
    operation == b"EQU".as_slice()
}

/// Whether a text is the name of SYN.
fn is_syn(operation: &[u8]) -> bool
    ensures { result ≡ pointwise nat_eq operation.now (codes "SYN") }
{
    operation == b"SYN".as_slice()
}

/// Whether what stands in the symbol field fits the operation: a symbol, or nothing where the operation isn't EQU or SYN.
fn fits_symbol(symbol: &[u8], operation: &[u8]) -> bool
    ensures { result ≡ fits_symbol symbol.now operation.now }
{
    if symbol.is_empty() {
        !(is_equ(operation) || is_syn(operation))
    } else {
        is_symbol(symbol)
    }
}

/// Reads the card of three fields in place of another.
#[tactic(auto, unfolding(crate::specs::Reading::fields_reading))]
fn read_fields(
    card: &mut Card,
    symbol: &[u8],
    operation: &[u8],
    operand: &[u8],
) -> Result<(), CardFault>
    requires { length operand.now ≤ 120 }
    ensures read { OnOk result (fields_reading symbol.now operation.now operand.now ≡ Ok card.new) }
    ensures fault { IfErr result (λ fault. fields_reading symbol.now operation.now operand.now ≡ Err fault) }
{
    if !fits_symbol(symbol, operation) {
        return Err(CardFault::BadSymbol);
    }
    let operation = operation_named(operation).ok_or(CardFault::UnknownOperation)?;
    card.symbol = Name::of(symbol);
    read_body(&mut card.body, operation, operand)
}

/// Reads the card that a line is in place of another, or finds the first of its faults, and the card then says nothing of the line.
/// Whoever reads many lines needs room for one card so, and cards of one kind are not moved.
#[tactic(auto, unfolding(crate::specs::Reading::reading))]
pub fn read_card_into(card: &mut Card, line: &[u8]) -> Result<(), CardFault>
    ensures read { OnOk result (reading line.now ≡ Ok card.new) }
    ensures fault { IfErr result (λ fault. reading line.now ≡ Err fault) }
{
    if !are_allowed(line) {
        return Err(CardFault::BadByte);
    }
    if line.len() > MOST_BYTES {
        return Err(CardFault::LongCard);
    }
    if is_comment(line) {
        *card = Card::comment();
        return Ok(());
    }
    let fields = split_fields(line);
    read_fields(card, fields.symbol, fields.operation, fields.operand)
}

/// The card that a line is, or the first of its faults: no line has a fault before the one that is told.
pub fn read_card(line: &[u8]) -> Result<Card, CardFault>
    ensures { result ≡ reading line.now }
{
    let mut card = Card::comment();
    read_card_into(&mut card, line)?;
    Ok(card)
}
