//! A further condition on a row that is sought, by its number.

ghost use Rattle.std.specs.Prelude.{◌↔◌, ℕ, IsTrue};

/// A further condition on a row, by its number, which is counted from 1.
pub trait Serving {
    /// The condition.
    ghost serves: { Self → ℕ → Type 0 };

    /// Whether the condition holds of the row with a number.
    fn serves(&self, number: u32) -> bool
        ensures { IsTrue result ↔ serves self.now number };
}

/// No further condition.
#[derive(Clone, Copy)]
pub struct EachServes;

impl Serving for EachServes {
    ghost use Rattle.std.specs.Prelude.{⊤};

    ghost serves = { λ each number. ⊤ };

    #[inline]
    fn serves(&self, number: u32) -> bool {
        true
    }
}
