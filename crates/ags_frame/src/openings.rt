//! What the first line of a text is.

ghost use Rattle.std.specs.Prelude.{◌≡◌, ◌<◌, ◌≤◌, ℕ, true, false, List, Some, IfSome, IsSomeAnd, slice_index};
ghost use Rattle.ags_text.specs.Field.{IsField};
ghost use Rattle.ags_frame.specs.Opening.{IsOpening, IsOpeningOf, IsVersionField};
ghost use Rattle.ags_frame.specs.declared.openings.Opening.{Opening};

use crate::numbers::read_size;
use ags_text::{MOST_LINE_BYTES, are_blanks, split_field};

/// What a text's first line is.
#[derive(Clone, Copy, Debug, PartialEq, Eq)]
pub enum Opening {
    /// It opens a text of this version.
    Version(u32),
    /// It opens a text of another version.
    Another,
    /// It is none of these.
    Malformed,
}

/// Whether a text is this one.
fn is_same(text: &[u8], other: &[u8]) -> bool
    ensures yes { result ≡ true → text.now ≡ other.now }
    ensures no { result ≡ false → text.now ≡ other.now → ⊥ }
{
    text == other
}

/// The digits of a version, after the name of a text in its first line.
fn version_digits<'a>(line: &'a [u8], name: &[u8]) -> Option<&'a [u8]>
    ensures found { IfSome result (λ digits. IsVersionField name.now line.now digits.now) }
    ensures only { (digits : List ℕ) → IsVersionField name.now line.now digits → IsSomeAnd result (λ found. found.now ≡ digits) }
{
    let (first, behind) = split_field(line);
    let (digits, rest) = split_field(behind);
    if !is_same(first, name) {
        return None;
    }
    if are_blanks(rest) { Some(digits) } else { None }
}

/// Whether a number is spelled with a 0 before it, or is 0.
fn begins_with_zero(digits: &[u8]) -> bool
    ensures yes { result ≡ true → slice_index digits.now 0 ≡ 48 }
    ensures no { result ≡ false → slice_index digits.now 0 ≡ 48 → ⊥ }
{
    match digits {
        [b'0', ..] => true,
        _ => false,
    }
}

/// What a first line is whose version has these digits.
fn opening_of(digits: &[u8], latest: u32) -> Opening
    ensures { IsOpeningOf latest digits.now result }
{
    let Some(version) = read_size(digits) else {
        return Opening::Malformed;
    };
    if version == 0 || version > latest {
        return Opening::Another;
    }
    if begins_with_zero(digits) {
        Opening::Malformed
    } else {
        Opening::Version(version)
    }
}

/// What the first line of a text with this name is, of which there are versions from 1 to the latest.
pub fn read_opening(line: &[u8], name: &[u8], latest: u32) -> Opening
    requires { IsField name.now }
    // The line is read as what it is, and is nothing else.
    ensures found { IsOpening name.now latest line.now result }
    ensures only { (opening : Opening) → IsOpening name.now latest line.now opening → opening ≡ result }
{
    if line.len() > MOST_LINE_BYTES {
        return Opening::Malformed;
    }
    match version_digits(line, name) {
        Some(digits) => opening_of(digits, latest),
        None => Opening::Malformed,
    }
}
