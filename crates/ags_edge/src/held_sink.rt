//! Sinks that hold back what they took.

ghost use Rattle.std.specs.Prelude.{◌≡◌, ◌<◌, ◌≤◌, ◌+◌, ◌^◌, true, false};
ghost use Rattle.ags_outside.specs.Count.{Rose};

use ags_outside::Sink;

/// A sink that may hold back some of what it took, until it is finished.
pub trait HeldSink: Sink {
    /// Nothing that it took is held back.
    ghost is_written: { Self → Type 0 };

    /// Writes what is held back, and tells whether that was done: where it wasn't, the sink failed once more. It takes nothing
    /// more. The count of faults is one of 64 bits.
    fn finish(&mut self) -> bool
        ensures told { Self.told self.new ≡ Self.told self.old }
        ensures written { result ≡ true → is_written self.new }
        ensures faults_stay { Self.faults self.old ≤ Self.faults self.new }
        ensures counted { Self.faults self.new < 2 ^ 64 }
        ensures failed { result ≡ false → Rose (Self.faults self.old) (Self.faults self.new) }
        ensures once { result ≡ false → Self.faults self.new ≤ Self.faults self.old + 1 }
        ensures clean { result ≡ true → Self.faults self.new ≡ Self.faults self.old };
}
