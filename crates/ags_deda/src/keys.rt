//! The panel's keys.

ghost use Rattle.std.specs.Prelude.{◌≡◌};
ghost use Rattle.ags_deda.specs.Key.{is_octal_digit, is_decimal_digit, is_sign, is_entr, is_readout, is_hold, is_clr, key_character, key_digit};

/// A key of the panel.
#[derive(Clone, Copy)]
pub enum Key {
    /// A digit, 0 to 9. The panel has no key for a greater number: one that is pressed is a wrong key wherever it stands.
    Digit(u8),
    /// The plus.
    Plus,
    /// The minus.
    Minus,
    /// CLR: the panel begins anew.
    Clr,
    /// ENTR: what was keyed is sent.
    Entr,
    /// READ OUT: the address that was keyed is sent, and what comes back is displayed.
    ReadOut,
    /// HOLD: the display stays as it is until the next READ OUT.
    Hold,
}

/// Whether a key is a digit of an address.
pub(crate) fn is_octal_digit(key: Key) -> bool
    ensures { result ≡ is_octal_digit key }
{
    match key {
        Key::Digit(digit) => digit < 8,
        _ => false,
    }
}

/// Whether a key is a digit of a value.
pub(crate) fn is_decimal_digit(key: Key) -> bool
    ensures { result ≡ is_decimal_digit key }
{
    match key {
        Key::Digit(digit) => digit < 10,
        _ => false,
    }
}

/// Whether a key is a sign.
pub(crate) fn is_sign(key: Key) -> bool
    ensures { result ≡ is_sign key }
{
    matches!(key, Key::Plus | Key::Minus)
}

/// Whether a key is ENTR.
pub(crate) fn is_entr(key: Key) -> bool
    ensures { result ≡ is_entr key }
{
    matches!(key, Key::Entr)
}

/// Whether a key is READ OUT.
pub(crate) fn is_readout(key: Key) -> bool
    ensures { result ≡ is_readout key }
{
    matches!(key, Key::ReadOut)
}

/// Whether a key is HOLD.
pub(crate) fn is_hold(key: Key) -> bool
    ensures { result ≡ is_hold key }
{
    matches!(key, Key::Hold)
}

/// Whether a key is CLR.
pub(crate) fn is_clr(key: Key) -> bool
    ensures { result ≡ is_clr key }
{
    matches!(key, Key::Clr)
}

/// What a key shows, and a space where it shows nothing.
pub(crate) fn character(key: Key) -> u8
    ensures { result ≡ key_character key }
{
    match key {
        Key::Digit(digit) => { if digit < 10 { b'0' + digit } else { b' ' } }
        Key::Plus => b'+',
        Key::Minus => b'-',
        _ => b' ',
    }
}

/// What a key sends, and 15 where it sends nothing of its own.
pub(crate) fn digit(key: Key) -> u8
    ensures { result ≡ key_digit key }
{
    match key {
        Key::Digit(digit) => { if digit < 10 { digit } else { 15 } }
        Key::Plus => 0,
        Key::Minus => 1,
        _ => 15,
    }
}
