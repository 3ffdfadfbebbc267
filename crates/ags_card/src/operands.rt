//! The operands of operations, each as what its card asks for.

ghost use Rattle.std.specs.Prelude.{◌≡◌, ◌≤◌, ◌==◌, not, length, Ok, Err, OnOk, IfErr};
ghost use Rattle.std.specs.List.{list_all};
ghost use Rattle.ags_card.specs.Reading.{is_indexed, without_index, order_terms, plain_terms, decimal_operands, octal_reading, octal_operands};

use crate::cards::CardFault;
use crate::expressions::{begins_with_minus, behind_sign};
use crate::lists::{DecList, OctList};
use crate::terms::Terms;
use ags_text::read_octal;
use ags_word::Word;

/// Whether no comma stands in a text.
fn has_no_comma(text: &[u8]) -> bool
    ensures { result ≡ list_all (λ b. not (b == 44)) text.now }
{
    text.iter().all(|byte| *byte != b',')
}

/// Whether an order's operand ends in the mark of the index.
#[tactic(auto, unfolding(crate::specs::Reading::is_indexed))]
pub(crate) fn is_indexed(operand: &[u8]) -> bool
    ensures { result ≡ is_indexed operand.now }
{
    matches!(operand, [.., b',', b'1'])
}

/// An order's operand without the mark of the index.
#[tactic(auto, unfolding(crate::specs::Reading::is_indexed, crate::specs::Reading::without_index))]
fn without_index(operand: &[u8]) -> &[u8]
    ensures { result.now ≡ without_index operand.now }
{
    if is_indexed(operand) {
        &operand[..operand.len() - 2]
    } else {
        operand
    }
}

/// Reads the terms of an order's operand in place of others.
#[tactic(auto, unfolding(crate::specs::Reading::order_terms))]
pub(crate) fn read_order_operand(operand: &[u8], terms: &mut Terms) -> Result<(), CardFault>
    requires { length operand.now ≤ 120 }
    ensures read { OnOk result (order_terms operand.now ≡ Ok terms.new) }
    ensures fault { IfErr result (λ fault. order_terms operand.now ≡ Err fault) }
{
    if operand.is_empty() {
        return Err(CardFault::MissingOperand);
    }
    terms.read(without_index(operand))
}

/// Reads the terms of the operand of ORG, EQU, SYN, BSS or BES in place of others.
#[tactic(auto, unfolding(crate::specs::Reading::plain_terms))]
pub(crate) fn read_plain_operand(operand: &[u8], terms: &mut Terms) -> Result<(), CardFault>
    requires { length operand.now ≤ 120 }
    ensures read { OnOk result (plain_terms operand.now ≡ Ok terms.new) }
    ensures fault { IfErr result (λ fault. plain_terms operand.now ≡ Err fault) }
{
    if operand.is_empty() {
        return Err(CardFault::MissingOperand);
    }
    if !has_no_comma(operand) {
        return Err(CardFault::ExtraOperand);
    }
    terms.read(operand)
}

/// The word of an octal number with a sign or without.
#[tactic(auto, unfolding(crate::specs::Reading::octal_reading))]
pub(crate) fn read_signed_octal(text: &[u8]) -> Option<Word>
    ensures { result ≡ octal_reading text.now }
{
    let Some(number) = read_octal(behind_sign(text)) else {
        return None;
    };
    let word = Word::of(number)?;
    if begins_with_minus(text) {
        Some(word.com().0)
    } else {
        Some(word)
    }
}

/// Reads the decimals of the operand of DEC in place of others.
#[tactic(auto, unfolding(crate::specs::Reading::decimal_operands))]
pub(crate) fn read_decimal_operands(operand: &[u8], numbers: &mut DecList) -> Result<(), CardFault>
    requires { length operand.now ≤ 120 }
    ensures read { OnOk result (decimal_operands operand.now ≡ Ok numbers.new) }
    ensures fault { IfErr result (λ fault. decimal_operands operand.now ≡ Err fault) }
{
    if operand.is_empty() {
        return Err(CardFault::MissingOperand);
    }
    numbers.read(operand)
}

/// Reads the words of the operand of OCT in place of others.
#[tactic(auto, unfolding(crate::specs::Reading::octal_operands))]
pub(crate) fn read_octal_operands(operand: &[u8], words: &mut OctList) -> Result<(), CardFault>
    requires { length operand.now ≤ 120 }
    ensures read { OnOk result (octal_operands operand.now ≡ Ok words.new) }
    ensures fault { IfErr result (λ fault. octal_operands operand.now ≡ Err fault) }
{
    if operand.is_empty() {
        return Err(CardFault::MissingOperand);
    }
    words.read(operand)
}
