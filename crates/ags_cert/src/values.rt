//! The value at a position of a line.

ghost use Rattle.std.specs.Prelude.{◌≡◌, ℕ, ◌≤◌, List, length, drop, Some, IfSome, IfNone};
ghost use Rattle.ags_text.specs.Field.{behind_field};
ghost use Rattle.ags_domain.specs.declared.values.Value.{Value};
ghost use Rattle.ags_cert.specs.ValueAt.{StandsAt, IsLongestAt};

use ags_domain::{MOST_WORDS, Value};
use ags_text::split_field;

/// The most fields of a value: its keyword, and the words of a set.
const MOST_FIELDS: usize = 1 + MOST_WORDS;

/// The position after the next field, from a position of a line on. Where no field is left it is the end of the line.
fn field_end(line: &[u8], from: usize) -> usize
    requires { from ≤ length line.now }
    ensures ordered { from ≤ result }
    ensures within { result ≤ length line.now }
    ensures left { drop result line.now ≡ behind_field (drop from line.now) }
{
    let (_field, rest) = split_field(&line[from..]);
    line.len() - rest.len()
}

/// The value that the fields from one position of a line to another state, where the other is after a field.
fn value_between(line: &[u8], from: usize, behind: usize) -> Option<Value>
    requires ordered { from ≤ behind }
    requires within { behind ≤ length line.now }
    requires behind_one { (before : List ℕ) × (drop behind line.now ≡ behind_field before) }
    ensures found { IfSome result (λ value. StandsAt line.now from value behind) }
    ensures only { (value : Value) → StandsAt line.now from value behind → result ≡ Some value }
{
    let Some((value, rest)) = ags_certtext::read_value(&line[from..behind]) else {
        return None;
    };
    if rest.is_empty() { value } else { None }
}

/// The value that begins at a position of a line, as long as can be, and the position after it, or nothing where none begins there, a range whose
/// least is above its greatest among them (docs/CERTIFICATE.md, Values). Blanks may stand before it. It takes no memory.
pub fn read_value(line: &[u8], from: usize) -> Option<(Value, usize)>
    requires { from ≤ length line.now }
    ensures found { IfSome result (λ found. IsLongestAt line.now from found.0 found.1) }
    ensures only { (value : Value) (behind : ℕ) → IsLongestAt line.now from value behind → result ≡ Some (value, behind) }
    ensures none { IfNone result ((value : Value) (behind : ℕ) → StandsAt line.now from value behind → ⊥) }
{
    let mut longest = None;
    let mut behind = from;
    for _count in 0..MOST_FIELDS {
        behind = field_end(line, behind);
        if let Some(value) = value_between(line, from, behind) {
            longest = Some((value, behind));
        }
    }
    longest
}
