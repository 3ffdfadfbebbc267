//! A symbol's line.

ghost use Rattle.std.specs.Prelude.{◌≡◌, ◌++◌, ◌-◌, length, OnOk};
ghost use Rattle.std.specs.Fmt.{signed_decimal};
ghost use Rattle.std.specs.List.{flat_map};
ghost use Rattle.ags_xref.specs.Gathering.{entry_of};
ghost use Rattle.ags_xref.specs.Xref.{blanks, left_in, number_text, right_in, xref_line};

use crate::rows::Row;
use ags_text::decimal7;
use std::alloc::{AllocError, Global};

/// The width of the column of names.
const NAME_WIDTH: usize = 6;

/// The width of the column of values.
const VALUE_WIDTH: usize = 7;

/// Adds the blanks that fill a column of that width after or before a text of that length.
fn push_blanks(line: &mut Vec<u8>, width: usize, length: usize) -> Result<(), AllocError>
    ensures { OnOk result (line.new.items ≡ line.old.items ++ blanks (width - length)) }
{
    for _ in length..width {
        line.push(b' ')?;
    }
    Ok(())
}

/// Adds a symbol's name.
fn push_name(line: &mut Vec<u8>, name: &[u8]) -> Result<(), AllocError>
    ensures { OnOk result (line.new.items ≡ line.old.items ++ left_in 6 name.now) }
{
    line.extend_from_slice(name)?;
    push_blanks(line, NAME_WIDTH, name.len())
}

/// Adds a symbol's value.
fn push_value(alloc: Global, line: &mut Vec<u8>, value: i32) -> Result<(), AllocError>
    ensures { OnOk result (line.new.items ≡ line.old.items ++ right_in 7 (signed_decimal value)) }
{
    let text = value.to_string(alloc)?;
    push_blanks(line, VALUE_WIDTH, text.len())?;
    line.extend_from_slice(text.as_bytes())
}

/// Adds a card's number.
fn push_number(line: &mut Vec<u8>, number: u32) -> Result<(), AllocError>
    ensures { OnOk result (line.new.items ≡ line.old.items ++ number_text number) }
{
    line.push(b' ')?;
    line.extend_from_slice(&decimal7(number))
}

/// Adds the numbers of cards.
fn push_numbers(line: &mut Vec<u8>, numbers: &[u32]) -> Result<(), AllocError>
    ensures { OnOk result (line.new.items ≡ line.old.items ++ flat_map number_text numbers.now) }
{
    for number in numbers {
        push_number(line, *number)?;
    }
    Ok(())
}

/// Adds a symbol's line, where these cards name it.
#[tactic(auto, unfolding(crate::specs::Xref::xref_line))]
pub(crate) fn push_line(
    alloc: Global,
    line: &mut Vec<u8>,
    row: &Row,
    naming: &[u32],
) -> Result<(), AllocError>
    ensures { OnOk result (line.new.items ≡ line.old.items ++ xref_line (entry_of row.now) naming.now) }
{
    push_name(line, row.name.bytes())?;
    line.push(b' ')?;
    push_value(alloc, line, row.defined.value)?;
    push_number(line, row.defined.card)?;
    push_numbers(line, naming)?;
    line.push(b'\n')?;
    Ok(())
}
