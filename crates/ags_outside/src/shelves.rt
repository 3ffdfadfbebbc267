//! Shelves: where files are read from.

ghost use Rattle.std.specs.Prelude.{◌≡◌, ℕ, ◌<◌, List, length};
ghost use Rattle.ags_outside.specs.Count.{HasCause, Rose};
ghost use Rattle.ags_outside.specs.Shelf.{GotWithin, PullTells, is_absent_pull, is_failed_pull};
ghost use Rattle.ags_outside.specs.ToldFile.{ToldFile};

/// What a shelf answers to a pull.
#[derive(Clone, Copy, PartialEq, Eq)]
pub enum Pull {
    /// So many bytes stand at the front of the room that was given.
    Got(usize),
    /// No byte of the file stands at that position or after it.
    End,
    /// There is no such file.
    Absent,
    /// The file couldn't be read.
    Failed,
    /// There was too little memory.
    NoMemory,
}

/// What files are read from, by their names.
pub trait Shelf {
    /// Of a file, by its name's bytes, where the shelf tells: its bytes, or that it is absent. No call changes it.
    ghost told: { Self → List ℕ → ToldFile };

    /// How often it has failed.
    ghost faults: { Self → ℕ };

    /// How often it has found a file absent.
    ghost absences: { Self → ℕ };

    /// Reads bytes of a file from that position on, as many as there is room for or fewer.
    fn pull(&mut self, name: &str, from: u64, into: &mut [u8]) -> Pull
        requires { 0 < length into.old }
        ensures same { told self.new ≡ told self.old }
        ensures got { GotWithin (length into.old) result }
        ensures tells { PullTells (told self.old name.now) from into.new result }
        ensures absent { result ≡ Pull.Absent → Rose (absences self.old) (absences self.new) }
        ensures failed { result ≡ Pull.Failed → Rose (faults self.old) (faults self.new) }
        ensures faults { HasCause (faults self.old) (faults self.new) (is_failed_pull result) }
        ensures absences { HasCause (absences self.old) (absences self.new) (is_absent_pull result) };
}
