//! A cell with what it may hold.

use std::alloc::AllocError;

/// A cell's address and the words that it may hold.
#[derive(Copy, Debug, PartialEq, Eq)]
pub struct At<D> {
    /// The address.
    pub address: u16,
    /// The words.
    pub value: D,
}

// Written: a derived one promises of the words only what their own copy does.
impl<D: Copy> Clone for At<D> {
    ghost use Rattle.std.specs.Prelude.{◌≡◌, ⊤};

    ghost is_clone = { λ at copy. copy ≡ at };

    ghost is_infallible = { λ _. ⊤ };

    fn clone(&self) -> Result<At<D>, AllocError> {
        Ok(*self)
    }
}
