//! How far the keys since the last CLR have come in the two forms.

ghost use Rattle.std.specs.Prelude.{◌≡◌, ◌<◌, List, [], ◌∷◌, length, min, true, false, IfSome, IfNone};
ghost use Rattle.ags_deda.specs.declared.keys.Key.{Key};
ghost use Rattle.ags_deda.specs.Form.{entry_has, readout_has, fits, are_lawful, is_held, is_entered, in_readout};
ghost use Rattle.ags_deda.specs.Part.{IsKeying};
ghost use Rattle.ags_deda.specs.Panel.{is_whole};

use crate::keys::{Key, is_decimal_digit, is_entr, is_hold, is_octal_digit, is_readout, is_sign};

/// The keys of a whole entry.
const ENTRY_KEYS: u8 = 10;

/// How far the keys that were taken have come.
#[derive(Clone, Copy)]
pub(crate) struct Keying {
    /// Whether they are a front of an entry.
    entry: bool,
    /// Whether they are a front of a readout.
    readout: bool,
    /// How many they are, and ten where they are more.
    count: u8,
    /// Whether HOLD is in force.
    pub(crate) held: bool,
}

/// Whether a key may stand after so many of an entry.
#[tactic(auto, unfolding(crate::specs::Form::entry_has))]
fn entry_has(position: u8, key: Key) -> bool
    ensures { result ≡ entry_has position key }
{
    if position < 3 {
        is_octal_digit(key)
    } else if position == 3 {
        is_sign(key)
    } else if position < 9 {
        is_decimal_digit(key)
    } else {
        position == 9 && is_entr(key)
    }
}

/// Whether a key may stand after so many of a readout, up to ten, where HOLD is in force or not.
fn readout_has(position: u8, held: bool, key: Key) -> bool
    ensures { (keys : List Key) → fits readout_has keys ≡ true → position ≡ min (length keys) 10 → held ≡ is_held keys
        → result ≡ readout_has (length keys) key }
{
    if position < 3 {
        is_octal_digit(key)
    } else if position == 3 || held {
        is_readout(key)
    } else {
        is_hold(key)
    }
}

/// One key more, and ten where they are more.
fn one_more(count: u8) -> u8
    ensures { (keys : List Key) (key : Key) → count ≡ min (length keys) 10 → result ≡ min (length (key ∷ keys)) 10 }
{
    if count < ENTRY_KEYS { count + 1 } else { count }
}

impl Keying {
    /// No key is taken.
    #[tactic(auto, unfolding(crate::specs::Form::fits))]
    pub(crate) fn new() -> Keying
        ensures { IsKeying result [] }
    {
        Keying {
            entry: true,
            readout: true,
            count: 0,
            held: false,
        }
    }

    /// How many keys were taken, and ten where they are more.
    pub(crate) fn count(self) -> u8
        ensures { (keys : List Key) → IsKeying self keys → result ≡ min (length keys) 10 }
    {
        self.count
    }

    /// Whether the keys are a readout, from its first READ OUT on.
    pub(crate) fn in_readout(self) -> bool
        ensures { (keys : List Key) → IsKeying self keys → result ≡ in_readout keys }
    {
        self.readout && self.count > 3
    }

    /// Whether the keys are a whole entry.
    fn is_entered(self) -> bool
        ensures { (keys : List Key) → IsKeying self keys → result ≡ is_entered keys }
    {
        self.entry && self.count == ENTRY_KEYS
    }

    /// Whether the keys make a message.
    pub(crate) fn is_whole(self) -> bool
        ensures { (keys : List Key) → IsKeying self keys → result ≡ is_whole keys }
    {
        self.is_entered() || self.in_readout()
    }

    /// Whether the keys with one more are a front of an entry.
    #[tactic(auto, using(crate::proofs::KeyLemmas::fits_cons, crate::proofs::KeyLemmas::entry_capped))]
    fn fits_entry(self, key: Key) -> bool
        ensures { (keys : List Key) → IsKeying self keys → result ≡ fits entry_has (key ∷ keys) }
    {
        self.entry && entry_has(self.count, key)
    }

    /// Whether the keys with one more are a front of a readout.
    #[tactic(auto, using(crate::proofs::KeyLemmas::fits_cons))]
    fn fits_readout(self, key: Key) -> bool
        ensures { (keys : List Key) → IsKeying self keys → result ≡ fits readout_has (key ∷ keys) }
    {
        self.readout && readout_has(self.count, self.held, key)
    }

    /// The keys with one more, and nothing where that makes them unlawful.
    pub(crate) fn with(self, key: Key) -> Option<Keying>
        ensures lawful { IfSome result (λ keying. (keys : List Key) → IsKeying self keys → (are_lawful (key ∷ keys) ≡ true) × IsKeying keying (key ∷ keys)) }
        ensures wrong { IfNone result ((keys : List Key) → IsKeying self keys → are_lawful (key ∷ keys) ≡ false) }
    {
        let entry = self.fits_entry(key);
        let readout = self.fits_readout(key);
        if entry || readout {
            Some(Keying {
                entry,
                readout,
                count: one_more(self.count),
                held: is_hold(key),
            })
        } else {
            None
        }
    }
}
