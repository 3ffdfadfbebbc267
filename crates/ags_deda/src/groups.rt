//! The digits that a readout shows, in groups of nine.

ghost use Rattle.std.specs.Prelude.{◌≡◌, ℕ, List, [], ◌∷◌};
ghost use Rattle.ags_deda.specs.Panel.{whole_group};
ghost use Rattle.ags_deda.specs.Part.{IsFilling};

use crate::keyed::COLUMNS;

/// A group that is filled digit by digit.
#[derive(Clone, Copy)]
pub(crate) struct Group {
    /// Its digits, and after them those of the group before it.
    digits: [u8; COLUMNS],
    /// How many of them are there.
    filled: u8,
}

impl Group {
    /// A group without a digit.
    pub(crate) fn new() -> Group
        ensures { IsFilling result [] }
    {
        Group {
            digits: [0; COLUMNS],
            filled: 0,
        }
    }

    /// Puts a digit into the group. The whole group comes with its ninth, and the next digit begins another.
    pub(crate) fn push(&mut self, digit: u8) -> Option<[u8; COLUMNS]>
        ensures filling { (digits : List ℕ) → IsFilling self.old digits → IsFilling self.new (digit ∷ digits) }
        ensures whole { (digits : List ℕ) → IsFilling self.old digits
            → result ≡ whole_group digit digits }
    {
        let column = self.filled as usize % COLUMNS;
        self.digits[column] = digit;
        if column + 1 < COLUMNS {
            self.filled = column as u8 + 1;
            return None;
        }
        self.filled = 0;
        Some(self.digits)
    }
}
