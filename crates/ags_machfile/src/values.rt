//! What the values of a document say.

ghost use Rattle.std.specs.Prelude.{◌≡◌, ◌≤◌, ◌<◌, option_map, IfSome};
ghost use Rattle.toml.specs.Data.{get_member};
ghost use Rattle.toml.specs.View.{view, table_view};
ghost use Rattle.ags_machfile.specs.Value.{whole_number, address_given};
ghost use Rattle.ags_machfile.specs.MachineFile.{address_in};

use crate::keys::Key;
use crate::mach_error::MachError;
use ags_word::LOCATIONS;
use toml::{Table, Value};

/// The value at a key of a table.
pub(crate) fn value_at<'a>(table: &'a Table, key: &str) -> Option<&'a Value>
    ensures { option_map (λ value. view value.now) result ≡ get_member key.now (table_view table.now) }
{
    table.get(key)
}

/// The whole number of a value within limits.
pub(crate) fn whole_number(value: &Value, least: u32, most: u32) -> Option<u32>
    ensures number { result ≡ whole_number least most (view value.now) }
    ensures least { IfSome result (λ number. least ≤ number) }
    ensures most { IfSome result (λ number. number ≤ most) }
{
    let number = u32::try_from(value.as_integer()?).ok()?;
    if least <= number && number <= most {
        Some(number)
    } else {
        None
    }
}

/// The address that a value gives.
pub(crate) fn address_given(value: &Value) -> Option<u16>
    ensures address { result ≡ address_given (view value.now) }
    ensures below { IfSome result (λ address. address < 4096) }
{
    let address = whole_number(value, 0, u32::from(LOCATIONS) - 1)?;
    Some(address as u16)
}

/// The address that stands at a key of a document, and the usual one where none does.
pub(crate) fn address_in(
    document: &Table,
    key: &str,
    which: Key,
    usual: u16,
) -> Result<u16, MachError>
    ensures { result ≡ address_in which usual (get_member key.now (table_view document.now)) }
{
    let Some(value) = value_at(document, key) else {
        return Ok(usual);
    };
    match address_given(value) {
        Some(address) => Ok(address),
        None => Err(MachError::BadValue { which }),
    }
}
