//! The table of times.

ghost use Rattle.std.specs.Prelude.{◌≡◌, ◌≤◌, IfOk, Some, codes};
ghost use Rattle.toml.specs.Data.{get_member};
ghost use Rattle.toml.specs.View.{view, table_view};
ghost use Rattle.ags_ports.specs.Time.{AreTimes};
ghost use Rattle.ags_machfile.specs.declared.keys.Key.TheVariants as key;
ghost use Rattle.ags_machfile.specs.OrderTable.{time_entry, order_numbers, times_in};

use crate::keys::Key;
use crate::mach_error::MachError;
use crate::values::{value_at, whole_number};
use ags_isa::Order;
use ags_ports::Times;
use toml::{Table, Value};

/// The greatest time of an order, in microseconds.
const LONGEST: u32 = 1000;

/// The times of a document, and the standard ones where it has none.
pub(crate) fn times_in(document: &Table) -> Result<Times, MachError>
    ensures { result ≡ times_in (get_member (codes "times") (table_view document.now)) }
{
    match value_at(document, "times") {
        Some(value) => times_of(value),
        None => Ok(Times::standard()),
    }
}

/// The times that a value is.
fn times_of(value: &Value) -> Result<Times, MachError>
    ensures { result ≡ times_in (Some (view value.now)) }
{
    let Some(table) = value.as_table() else {
        return Err(MachError::BadValue { which: Key::Times });
    };
    let times = time_table(table)?;
    Ok(Times::of(&times).unwrap())
}

/// The time that a table gives each order, in their alphabetical order.
fn time_table(table: &Table) -> Result<[u32; 27], MachError>
    ensures times { result ≡ order_numbers key.Times time_entry (Some (table_view table.now)) }
    ensures table { IfOk result AreTimes }
{
    let mut times = [1; 27];
    for position in 0..27 {
        times[position] = time_entry(table, Order::at(position))?;
    }
    Ok(times)
}

/// The time that a table gives an order.
fn time_entry(table: &Table, order: Order) -> Result<u32, MachError>
    ensures time { result ≡ time_entry (table_view table.now) order }
    ensures least { IfOk result (λ time. 1 ≤ time) }
    ensures most { IfOk result (λ time. time ≤ 1000) }
{
    let which = Key::Time(order);
    let Some(value) = value_at(table, order.name()) else {
        return Err(MachError::MissingKey { which });
    };
    match whole_number(value, 1, LONGEST) {
        Some(time) => Ok(time),
        None => Err(MachError::BadValue { which }),
    }
}
