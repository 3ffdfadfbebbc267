//! The table of codes.

ghost use Rattle.std.specs.Prelude.{◌≡◌, ◌<◌, length, All, IfOk, IfSome, Some, codes};
ghost use Rattle.toml.specs.Data.{get_member};
ghost use Rattle.toml.specs.View.{view, table_view};
ghost use Rattle.ags_machfile.specs.declared.keys.Key.TheVariants as key;
ghost use Rattle.ags_machfile.specs.OrderTable.{code_given, code_entry, order_numbers, order_with_code_of, first_pair, shared_pair, codes_in};

use crate::keys::Key;
use crate::mach_error::MachError;
use crate::values::{value_at, whole_number};
use ags_isa::{Codes, Order};
use toml::{Table, Value};

/// The greatest two octal digits of a code.
const GREATEST_DIGITS: u32 = 62;

/// The codes of a document, and the standard ones where it has none.
pub(crate) fn codes_in(document: &Table) -> Result<Codes, MachError>
    ensures { result ≡ codes_in (get_member (codes "codes") (table_view document.now)) }
{
    match value_at(document, "codes") {
        Some(value) => codes_of(value),
        None => Ok(Codes::standard()),
    }
}

/// The codes that a value is.
fn codes_of(value: &Value) -> Result<Codes, MachError>
    ensures { result ≡ codes_in (Some (view value.now)) }
{
    let Some(table) = value.as_table() else {
        return Err(MachError::BadValue { which: Key::Codes });
    };
    let codes = code_table(table)?;
    match shared_pair(&codes) {
        Some((first, second)) => Err(MachError::SameCode { first, second }),
        None => Ok(Codes::of(&codes).unwrap()),
    }
}

/// The code that a table gives each order, in their alphabetical order.
fn code_table(table: &Table) -> Result<[u8; 27], MachError>
    ensures codes { result ≡ order_numbers key.Codes code_entry (Some (table_view table.now)) }
    ensures long { IfOk result (λ codes. length codes ≡ 27) }
    ensures below { IfOk result (λ codes. All (λ code. code < 32) codes) }
{
    let mut codes = [0; 27];
    for position in 0..27 {
        codes[position] = code_entry(table, Order::at(position))?;
    }
    Ok(codes)
}

/// The code that a table gives an order.
fn code_entry(table: &Table, order: Order) -> Result<u8, MachError>
    ensures code { result ≡ code_entry (table_view table.now) order }
    ensures below { IfOk result (λ code. code < 32) }
{
    let which = Key::Code(order);
    let Some(value) = value_at(table, order.name()) else {
        return Err(MachError::MissingKey { which });
    };
    match code_given(value) {
        Some(code) => Ok(code),
        None => Err(MachError::BadValue { which }),
    }
}

/// The code that a value gives by its two octal digits.
fn code_given(value: &Value) -> Option<u8>
    ensures code { result ≡ code_given (view value.now) }
    ensures below { IfSome result (λ code. code < 32) }
{
    let digits = whole_number(value, 0, GREATEST_DIGITS)?;
    if digits % 2 == 0 {
        Some((digits / 2) as u8)
    } else {
        None
    }
}

/// The first pair of all orders with one code.
fn shared_pair(codes: &[u8; 27]) -> Option<(Order, Order)>
    ensures { result ≡ shared_pair codes.now }
{
    first_pair(codes, &Order::ALL)
}

/// The first pair of these orders with one code.
fn first_pair(codes: &[u8; 27], orders: &[Order]) -> Option<(Order, Order)>
    ensures { result ≡ first_pair codes.now orders.now }
{
    match orders {
        [] => None,
        [order, others @ ..] => match order_with_code_of(codes, *order, others) {
            Some(other) => Some((*order, other)),
            None => first_pair(codes, others),
        },
    }
}

/// The first of these orders that has an order's code.
fn order_with_code_of(codes: &[u8; 27], order: Order, others: &[Order]) -> Option<Order>
    ensures { result ≡ order_with_code_of codes.now order others.now }
{
    let code = codes[order.number()];
    others
        .iter()
        .find(|other| codes[other.number()] == code)
        .copied()
}
