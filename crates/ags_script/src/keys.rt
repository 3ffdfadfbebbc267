//! The names of keys.

ghost use Rattle.std.specs.Prelude.{◌≡◌, IfSome, Some};
ghost use Rattle.ags_deda.specs.declared.keys.Key.{Key};
ghost use Rattle.ags_script.specs.Operand.{key_named};
ghost use Rattle.ags_script.specs.Spelling.{IsKeyName};

use ags_deda::Key;

/// The key of a name, letter for letter.
fn key_of(text: &[u8]) -> Option<Key>
    ensures found { IfSome result (λ key. IsKeyName text.now key) }
    ensures only { (key : Key) → IsKeyName text.now key → result ≡ Some key }
{
    match text {
        [digit @ b'0'..=b'9'] => Some(Key::Digit(*digit - b'0')),
        b"+" => Some(Key::Plus),
        b"-" => Some(Key::Minus),
        b"CLR" => Some(Key::Clr),
        b"ENTR" => Some(Key::Entr),
        b"RO" => Some(Key::ReadOut),
        b"HOLD" => Some(Key::Hold),
        _ => None,
    }
}

/// The key of a name, and nothing for a text that is none.
pub(crate) fn key_named(text: &[u8]) -> Option<Key>
    ensures { result ≡ key_named text.now }
{
    key_of(text)
}
