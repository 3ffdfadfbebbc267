//! Sinks: what bytes are put into.

ghost use Rattle.std.specs.Prelude.{◌≡◌, ℕ, ◌<◌, List, length, Option};
ghost use Rattle.ags_outside.specs.Count.{HasCause, Rose};
ghost use Rattle.ags_outside.specs.Sink.{TookWithin, is_failed_put, taken_after};

/// What a sink answers to a put.
#[derive(Clone, Copy, PartialEq, Eq)]
pub enum PutDone {
    /// So many bytes of the piece's front were taken.
    Took(usize),
    /// Nothing could be taken.
    Failed,
    /// There was too little memory, and nothing was taken.
    NoMemory,
}

/// What bytes are put into, one after the other.
pub trait Sink {
    /// The bytes taken so far, where the sink tells.
    ghost told: { Self → Option (List ℕ) };

    /// How often it has failed.
    ghost faults: { Self → ℕ };

    /// Puts a piece, of which it may take a front only.
    fn put(&mut self, piece: &[u8]) -> PutDone
        requires { 0 < length piece.now }
        ensures took { TookWithin (length piece.now) result }
        ensures taken { told self.new ≡ taken_after (told self.old) piece.now result }
        ensures failed { result ≡ PutDone.Failed → Rose (faults self.old) (faults self.new) }
        ensures faults { HasCause (faults self.old) (faults self.new) (is_failed_put result) };
}
