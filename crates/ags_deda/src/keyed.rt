//! What was keyed, as it is displayed and as it is sent.

ghost use Rattle.std.specs.Prelude.{◌≡◌, ◌<◌, List, [], ◌∷◌, length, min};
ghost use Rattle.ags_deda.specs.declared.keys.Key.{Key};
ghost use Rattle.ags_deda.specs.Part.{IsKeyed};

use crate::keys::{Key, character, digit};

/// The columns of the display and of a message.
pub(crate) const COLUMNS: usize = 9;

/// The keys that were taken, in their columns.
#[derive(Clone, Copy)]
pub(crate) struct Keyed {
    /// Their characters, and a space where there is none.
    pub(crate) characters: [u8; COLUMNS],
    /// Their digits, and 15 where there is none.
    pub(crate) digits: [u8; COLUMNS],
}

impl Keyed {
    /// Nothing is keyed.
    #[tactic(auto, unfolding(crate::specs::Panel::spelled, crate::specs::Panel::padded))]
    pub(crate) fn new() -> Keyed
        ensures { IsKeyed result [] }
    {
        Keyed {
            characters: [b' '; COLUMNS],
            digits: [15; COLUMNS],
        }
    }

    /// Puts a key after so many others, up to ten.
    pub(crate) fn write(&mut self, column: u8, key: Key)
        ensures { (keys : List Key) → column ≡ min (length keys) 10 → IsKeyed self.old keys → IsKeyed self.new (key ∷ keys) }
    {
        let column = column as usize;
        if column < COLUMNS {
            self.characters[column] = character(key);
            self.digits[column] = digit(key);
        }
    }
}
