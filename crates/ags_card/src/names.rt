//! The names that stand for values in a source.

ghost use Rattle.std.specs.Prelude.{◌≡◌, ℕ, Some, None, if◌then◌else◌, ◌||◌, true, get_or};
ghost use Rattle.std.specs.List.{list_all};
ghost use Rattle.std.specs.Hash as fed;
ghost use Rattle.std.specs.Cmp.{partial_equiv_from_equiv};
ghost use Rattle.std.specs.Cmp.Lexicographic.{pointwise, nat_list_eq_equiv};
ghost use Rattle.std.specs.Cmp.Rules.{hashing};
ghost use Rattle.std.proofs.Common.{rules};
ghost use Rattle.std.specs.Prelude.{nat_eq};
ghost use Rattle.ags_decimal.specs.Spelling.{is_digit};
ghost use Rattle.ags_card.specs.Symbol.{is_capital, is_symbol};
ghost use Rattle.ags_card.specs.Padding.{padded};

use ags_text::are_digits;
use std::hash::{Hash, Hasher};
use std::marker::Model;

/// The most bytes of a symbol.
const MOST_BYTES: usize = 6;

/// A symbol (docs/SOURCE.md, Symbols): one to six capital letters and digits, with a letter among them.
#[derive(Clone, Copy)]
pub struct Name {
    /// The symbol's bytes, with zeros after them.
    bytes: [u8; 6],
    length: u8,
}

impl Model for Name {
    ghost use Rattle.std.specs.Prelude.{◌≡◌, ℕ, List, IsTrue, length as list_length, take};
    ghost use Rattle.ags_card.specs.Symbol.{is_symbol};
    ghost use Rattle.ags_card.specs.Padding.{padded};

    ghost Value = { List ℕ };

    ghost view = { λ n. take n.length n.bytes };

    ghost invariant = { λ n. (padded (take n.length n.bytes) ≡ n.bytes) × (list_length (take n.length n.bytes) ≡ n.length) × IsTrue (is_symbol (take n.length n.bytes)) };

    ghost inverse = { λ text. record { bytes = padded text; length = list_length text } };

    ghost inverse_ok = { λ n h i. record { bytes = h.0 i; length = h.1 i } };
}

/// A byte of a text, and 0 after its end.
fn byte_or_zero(text: &[u8], position: usize) -> u8
    ensures { result ≡ get_or text.now position 0 }
{
    if position < text.len() {
        text[position]
    } else {
        0
    }
}

/// The first six bytes of a text, with zeros after it where it is shorter.
#[tactic(auto, unfolding(crate::specs::Padding::padded))]
fn pad(text: &[u8]) -> [u8; 6]
    ensures { result ≡ padded text.now }
{
    [
        byte_or_zero(text, 0),
        byte_or_zero(text, 1),
        byte_or_zero(text, 2),
        byte_or_zero(text, 3),
        byte_or_zero(text, 4),
        byte_or_zero(text, 5),
    ]
}

/// Whether each byte of a text is a capital or a digit.
fn are_symbol_bytes(text: &[u8]) -> bool
    ensures { result ≡ list_all (λ b. is_capital b || is_digit b) text.now }
{
    text.iter()
        .all(|byte| matches!(*byte, b'A'..=b'Z' | b'0'..=b'9'))
}

/// Whether a text is a symbol.
#[tactic(auto, unfolding(crate::specs::Symbol::is_symbol))]
pub(crate) fn is_symbol(text: &[u8]) -> bool
    ensures { result ≡ is_symbol text.now }
{
    are_symbol_bytes(text) && !are_digits(text) && !text.is_empty() && text.len() <= MOST_BYTES
}

impl Name {
    /// The name of a symbol, and nothing for any other text.
    pub fn of(text: &[u8]) -> Option<Name>
        ensures { result ≡ (if is_symbol text.now then Some text.now else None) }
    {
        if !is_symbol(text) {
            return None;
        }
        Some(Name {
            bytes: pad(text),
            length: text.len() as u8,
        })
    }

    /// The symbol's bytes.
    pub fn bytes(&self) -> &[u8]
        ensures same { result.now ≡ self.now }
        ensures symbol { is_symbol result.now ≡ true }
    {
        &self.bytes[..usize::from(self.length)]
    }
}

impl PartialEq for Name {
    ghost eq = { pointwise nat_eq };

    ghost laws = { partial_equiv_from_equiv nat_list_eq_equiv };

    fn eq(&self, other: &Name) -> bool {
        self.bytes() == other.bytes()
    }
}

impl Eq for Name {
    ghost laws = { nat_list_eq_equiv };
}

impl Hash for Name {
    ghost hash_input = { fed.slice fed.u8 };

    ghost respects_eq = { Prim.search (hashing, rules) };

    fn hash<H: Hasher>(&self, state: &mut H) {
        self.bytes().hash(state);
    }
}
