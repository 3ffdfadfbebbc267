//! What a card asks for, read in place of what another card asked for: a body has room for the terms or constants of the longest operand, and
//! where the new one is of the same kind, that room stays where it is.

ghost use Rattle.std.specs.Prelude.{◌≡◌, ◌≤◌, length, Ok, Err, OnOk, IfErr};
ghost use Rattle.ags_card.specs.Reading.{body_reading};
ghost use Rattle.ags_card.specs.declared.operations.Operation.TheVariants.{OfOrder, Org, Equ, Bss, Bes, Dec, Oct};

use crate::cards::{Body, CardFault};
use crate::lists::{DecList, OctList};
use crate::operands::{
    is_indexed, read_decimal_operands, read_octal_operands, read_order_operand, read_plain_operand,
};
use crate::operations::{Operation, is_bare};
use crate::terms::Terms;
use ags_isa::Order;

/// An order with its operand, where it has one.
fn read_order(body: &mut Body, order: Order, operand: &[u8]) -> Result<(), CardFault>
    requires { length operand.now ≤ 120 }
    ensures read { OnOk result (body_reading (OfOrder order) operand.now ≡ Ok body.new) }
    ensures fault { IfErr result (λ fault. body_reading (OfOrder order) operand.now ≡ Err fault) }
{
    if is_bare(order) {
        *body = Body::Order {
            order,
            terms: Terms::zero(),
            indexed: false,
        };
        return Ok(());
    }
    if let Body::Order {
        order: kept,
        terms,
        indexed,
    } = body
    {
        *kept = order;
        *indexed = is_indexed(operand);
        return read_order_operand(operand, terms);
    }
    let mut terms = Terms::zero();
    read_order_operand(operand, &mut terms)?;
    *body = Body::Order {
        order,
        terms,
        indexed: is_indexed(operand),
    };
    Ok(())
}

/// An ORG with its operand.
fn read_org(body: &mut Body, operand: &[u8]) -> Result<(), CardFault>
    requires { length operand.now ≤ 120 }
    ensures read { OnOk result (body_reading Org operand.now ≡ Ok body.new) }
    ensures fault { IfErr result (λ fault. body_reading Org operand.now ≡ Err fault) }
{
    if let Body::Org(terms) = body {
        return read_plain_operand(operand, terms);
    }
    let mut terms = Terms::zero();
    read_plain_operand(operand, &mut terms)?;
    *body = Body::Org(terms);
    Ok(())
}

/// An EQU or a SYN with its operand.
fn read_equ(body: &mut Body, operand: &[u8]) -> Result<(), CardFault>
    requires { length operand.now ≤ 120 }
    ensures read { OnOk result (body_reading Equ operand.now ≡ Ok body.new) }
    ensures fault { IfErr result (λ fault. body_reading Equ operand.now ≡ Err fault) }
{
    if let Body::Equ(terms) = body {
        return read_plain_operand(operand, terms);
    }
    let mut terms = Terms::zero();
    read_plain_operand(operand, &mut terms)?;
    *body = Body::Equ(terms);
    Ok(())
}

/// A BSS with its operand.
fn read_bss(body: &mut Body, operand: &[u8]) -> Result<(), CardFault>
    requires { length operand.now ≤ 120 }
    ensures read { OnOk result (body_reading Bss operand.now ≡ Ok body.new) }
    ensures fault { IfErr result (λ fault. body_reading Bss operand.now ≡ Err fault) }
{
    if let Body::Bss(terms) = body {
        return read_plain_operand(operand, terms);
    }
    let mut terms = Terms::zero();
    read_plain_operand(operand, &mut terms)?;
    *body = Body::Bss(terms);
    Ok(())
}

/// A BES with its operand.
fn read_bes(body: &mut Body, operand: &[u8]) -> Result<(), CardFault>
    requires { length operand.now ≤ 120 }
    ensures read { OnOk result (body_reading Bes operand.now ≡ Ok body.new) }
    ensures fault { IfErr result (λ fault. body_reading Bes operand.now ≡ Err fault) }
{
    if let Body::Bes(terms) = body {
        return read_plain_operand(operand, terms);
    }
    let mut terms = Terms::zero();
    read_plain_operand(operand, &mut terms)?;
    *body = Body::Bes(terms);
    Ok(())
}

/// A DEC with its operands.
fn read_dec(body: &mut Body, operand: &[u8]) -> Result<(), CardFault>
    requires { length operand.now ≤ 120 }
    ensures read { OnOk result (body_reading Dec operand.now ≡ Ok body.new) }
    ensures fault { IfErr result (λ fault. body_reading Dec operand.now ≡ Err fault) }
{
    if let Body::Dec(numbers) = body {
        return read_decimal_operands(operand, numbers);
    }
    let mut numbers = DecList::zero();
    read_decimal_operands(operand, &mut numbers)?;
    *body = Body::Dec(numbers);
    Ok(())
}

/// An OCT with its operands.
fn read_oct(body: &mut Body, operand: &[u8]) -> Result<(), CardFault>
    requires { length operand.now ≤ 120 }
    ensures read { OnOk result (body_reading Oct operand.now ≡ Ok body.new) }
    ensures fault { IfErr result (λ fault. body_reading Oct operand.now ≡ Err fault) }
{
    if let Body::Oct(words) = body {
        return read_octal_operands(operand, words);
    }
    let mut words = OctList::zero();
    read_octal_operands(operand, &mut words)?;
    *body = Body::Oct(words);
    Ok(())
}

/// What a card asks for with an operation and an operand.
pub(crate) fn read_body(
    body: &mut Body,
    operation: Operation,
    operand: &[u8],
) -> Result<(), CardFault>
    requires { length operand.now ≤ 120 }
    ensures read { OnOk result (body_reading operation operand.now ≡ Ok body.new) }
    ensures fault { IfErr result (λ fault. body_reading operation operand.now ≡ Err fault) }
{
    match operation {
        Operation::OfOrder(order) => read_order(body, order, operand),
        Operation::Org => read_org(body, operand),
        Operation::Equ | Operation::Syn => read_equ(body, operand),
        Operation::Bss => read_bss(body, operand),
        Operation::Bes => read_bes(body, operand),
        Operation::Dec => read_dec(body, operand),
        Operation::Oct => read_oct(body, operand),
        Operation::End => {
            *body = Body::End;
            Ok(())
        }
    }
}
