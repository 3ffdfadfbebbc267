//! A line with its line feed.

ghost use Rattle.std.specs.Prelude.{◌≡◌, ◌≤◌, ◌++◌, codes, length};

use std::marker::Model;

/// A line with its line feed, in place.
#[derive(Drop)]
pub struct WholeLine {
    /// The bytes, and further ones after them; the longest line has room, with its line feed.
    bytes: [u8; 35],
    /// How many of them are the line's.
    count: usize,
}

impl Model for WholeLine {
    ghost use Rattle.std.specs.Prelude.{ℕ, ◌≤◌, List, take};

    ghost Value = { List ℕ };

    ghost view = { λ line. take line.count line.bytes };

    ghost invariant = { λ line. line.count ≤ 35 };
}

impl WholeLine {
    /// Its bytes.
    pub fn as_slice(&self) -> &[u8]
        ensures { result.now ≡ self.now }
    {
        &self.bytes[..self.count]
    }
}

/// A line with its line feed.
pub fn whole_line(line: &[u8]) -> WholeLine
    requires { length line.now ≤ 34 }
    ensures { result ≡ line.now ++ codes "\n" }
{
    let mut bytes = [0; 35];
    bytes[..line.len()].copy_from_slice(line);
    bytes[line.len()] = b'\n';
    WholeLine {
        bytes,
        count: line.len() + 1,
    }
}
