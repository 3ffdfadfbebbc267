//! What stands after the keyword of a line.

ghost use Rattle.std.specs.Prelude.{◌≡◌, [], ◌∷◌, ℕ, Bool, List, Option, IfSome, IfNone, IsSomeAnd, Some};
ghost use Rattle.ags_domain.specs.declared.values.Value.{Value};
ghost use Rattle.ags_row.specs.declared.links.Link.{Link};
ghost use Rattle.ags_text.specs.Field.{next_field, behind_field};
ghost use Rattle.ags_certtext.specs.declared.statements.Entry.{Entry};
ghost use Rattle.ags_certtext.specs.declared.statements.RowLine.{RowLine};
ghost use Rattle.ags_certtext.specs.Front.{BeginsWithWord, BeginsWithNamed, BeginsWithFlags, IsPlace};
ghost use Rattle.ags_certtext.specs.Operand.{IsEntry, IsLinkText, IsRow, AreRowFlags};

use crate::flags::{read_indicators, read_indices};
use crate::numbers::read_address;
use crate::signed::read_offset;
use crate::statements::{Entry, RowLine};
use crate::values::read_value;
use ags_domain::Value;
use ags_row::Link;
use ags_text::{are_blanks, split_field};

/// The location that a text's only field writes.
pub(crate) fn read_place(text: &[u8]) -> Option<u16>
    ensures found { IfSome result (λ location. IsPlace text.now location) }
    ensures only { (location : ℕ) → IsPlace text.now location → result ≡ Some location }
{
    let (field, behind) = split_field(text);
    if are_blanks(behind) {
        read_address(field)
    } else {
        None
    }
}

/// The address and the value that a text's fields state.
pub(crate) fn read_entry(text: &[u8]) -> Option<Entry>
    ensures found { IfSome result (λ entry. IsEntry text.now entry) }
    ensures only { (entry : Entry) → IsEntry text.now entry → result ≡ Some entry }
{
    let (place, behind) = split_field(text);
    let Some(address) = read_address(place) else {
        return None;
    };
    let Some((value, rest)) = read_value(behind) else {
        return None;
    };
    if are_blanks(rest) {
        Some(Entry { address, value })
    } else {
        None
    }
}

/// The link that a text's fields state.
pub(crate) fn read_link(text: &[u8]) -> Option<Link>
    ensures found { IfSome result (λ link. IsLinkText text.now link) }
    ensures only { (link : Link) → IsLinkText text.now link → result ≡ Some link }
{
    let (place, behind) = split_field(text);
    let (number, rest) = split_field(behind);
    let address = read_address(place)?;
    let offset = read_offset(number)?;
    if are_blanks(rest) {
        Some(Link { address, offset })
    } else {
        None
    }
}

/// What stands after the next field of a text, where that is this byte alone.
fn behind_name(name: u8, text: &[u8]) -> Option<&[u8]>
    ensures found { IfSome result (λ behind. (next_field text.now ≡ name ∷ []) × (behind.now ≡ behind_field text.now)) }
    ensures none { IfNone result (next_field text.now ≡ name ∷ [] → ⊥) }
{
    let (field, behind) = split_field(text);
    match field {
        [byte] if *byte == name => Some(behind),
        _ => None,
    }
}

/// The value that stands after a name of one byte, and what stands after it.
fn read_named_value(name: u8, text: &[u8]) -> Option<(Option<Value>, &[u8])>
    ensures found { IfSome result (λ front. BeginsWithNamed name text.now front.0 front.1.now) }
    ensures only { (value : Option Value) (rest : List ℕ) → BeginsWithNamed name text.now value rest → (BeginsWithWord rest → ⊥)
        → IsSomeAnd result (λ front. (front.0 ≡ value) × (front.1.now ≡ rest)) }
{
    read_value(behind_name(name, text)?)
}

/// The index digits that stand after X.
fn read_x(text: &[u8]) -> Option<[bool; 8]>
    ensures found { IfSome result (λ flags. BeginsWithFlags 8 88 text.now flags) }
    ensures only { (flags : List Bool) → BeginsWithFlags 8 88 text.now flags → result ≡ Some flags }
{
    let (digits, _) = split_field(behind_name(b'X', text)?);
    read_indices(digits)
}

/// The indicator digits that stand after V.
fn read_v(text: &[u8]) -> Option<[bool; 2]>
    ensures found { IfSome result (λ flags. BeginsWithFlags 2 86 text.now flags) }
    ensures only { (flags : List Bool) → BeginsWithFlags 2 86 text.now flags → result ≡ Some flags }
{
    let (digits, _) = split_field(behind_name(b'V', text)?);
    read_indicators(digits)
}

/// What stands after the next two fields of a text.
fn behind_two(text: &[u8]) -> &[u8]
    ensures { result.now ≡ behind_field (behind_field text.now) }
{
    let (_, behind) = split_field(text);
    let (_, rest) = split_field(behind);
    rest
}

/// The index digits and the indicator digits that end the line of a row.
fn read_flags(text: &[u8]) -> Option<([bool; 8], [bool; 2])>
    ensures found { IfSome result (λ flags. AreRowFlags text.now flags.0 flags.1) }
    ensures only { (x v : List Bool) → AreRowFlags text.now x v → IsSomeAnd result (λ flags. (flags.0 ≡ x) × (flags.1 ≡ v)) }
{
    let x = read_x(text)?;
    let rest = behind_two(text);
    let v = read_v(rest)?;
    if are_blanks(behind_two(rest)) {
        Some((x, v))
    } else {
        None
    }
}

/// The row that a text's fields state: a location, what A and Q may hold, the index digits and the indicator digits, and nothing after
/// them (docs/CERTIFICATE.md, Rows).
pub fn read_row(text: &[u8]) -> Option<RowLine>
    ensures found { IfSome result (λ row. IsRow text.now row) }
    ensures only { (row : RowLine) → IsRow text.now row → result ≡ Some row }
{
    let (place, behind) = split_field(text);
    let Some(location) = read_address(place) else {
        return None;
    };
    let Some((a, behind_a)) = read_named_value(b'A', behind) else {
        return None;
    };
    let Some((q, behind_q)) = read_named_value(b'Q', behind_a) else {
        return None;
    };
    let Some(flags) = read_flags(behind_q) else {
        return None;
    };
    let x = flags.0;
    let v = flags.1;
    let row = RowLine {
        location,
        a,
        q,
        x,
        v,
    };
    Some(row)
}
