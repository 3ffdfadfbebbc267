//! Takers: what bytes are handed to, piece by piece.

ghost use Rattle.std.specs.Prelude.{◌≡◌, ℕ, List, OnOk};
ghost use Rattle.ags_outside.specs.Taken.{TookMore};

use std::alloc::AllocError;

/// What takes bytes, one piece after the other. It needn't keep them.
pub trait Taker {
    /// Whether it stands as it does after these bytes.
    ghost took: { Self → List ℕ → Type 0 };

    /// Whether what it was made for is still the same, as the registers that a reader reads for. No piece changes it.
    ghost stays: { Self → Self → Type 0 };

    /// Takes a piece. The one error is want of memory, and after it the taker isn't used again.
    fn take(&mut self, piece: &[u8]) -> Result<(), AllocError>
        ensures took { OnOk result (TookMore took self.old self.new piece.now) }
        ensures stays { OnOk result (stays self.old self.new) };

    /// A taker that took nothing more is made for the same.
    ghost stays_at_once: { (taker : Self) → stays taker taker };

    /// So is one that took two pieces, by what each of them left.
    ghost stays_on: { (old mid new : Self) → stays old mid → stays mid new → stays old new };
}

/// A list keeps what it takes.
impl Taker for Vec<u8> {
    ghost took = { λ list bytes. bytes ≡ list.items };

    ghost stays = { λ old new. Unit {0} };

    ghost stays_at_once = { λ taker. tt };

    ghost stays_on = { λ old mid new one two. tt };

    fn take(&mut self, piece: &[u8]) -> Result<(), AllocError> {
        self.extend_from_slice(piece)
    }
}
