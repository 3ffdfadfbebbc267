//! A sink of which one call fails.

ghost use Rattle.std.specs.Prelude.{◌≡◌, None};

use ags_outside::{PutDone, Sink};

/// A sink that tells nothing, counts its puts, takes at most so many bytes at each, and one at least, and fails at one of them alone.
#[derive(Drop)]
pub struct FailingSink {
    at: u64,
    most: usize,
    faults: u64,
    puts: u64,
}

impl FailingSink {
    /// A sink that fails at the put of this number, the first being 1, and takes each piece whole at another.
    pub fn at(at: u64) -> FailingSink
        ensures at { result.at ≡ at }
        ensures puts { result.puts ≡ 0 }
    {
        FailingSink::with_room(at, usize::MAX)
    }

    /// The same, but that it takes at most so many bytes at another.
    pub fn with_room(at: u64, most: usize) -> FailingSink
        ensures at { result.at ≡ at }
        ensures most { result.most ≡ most }
        ensures puts { result.puts ≡ 0 }
    {
        FailingSink {
            at,
            most,
            faults: 0,
            puts: 0,
        }
    }

    /// How many puts there were.
    pub fn puts(&self) -> u64
        ensures { result ≡ self.now.puts }
    {
        self.puts
    }
}

impl Sink for FailingSink {
    ghost told = { λ _. None };

    ghost faults = { λ sink. sink.faults };

    fn put(&mut self, piece: &[u8]) -> PutDone {
        self.puts = self.puts.saturating_add(1);
        if self.puts == self.at {
            self.faults = self.faults.saturating_add(1);
            return PutDone::Failed;
        }
        PutDone::Took(piece.len().min(self.most.max(1)))
    }
}
