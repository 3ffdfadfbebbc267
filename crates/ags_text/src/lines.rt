//! The lines of a text (docs/SOURCE.md, Lines).

ghost use Rattle.std.specs.Prelude.{◌≡◌};
ghost use Rattle.ags_text.specs.Line.{lines_of, Follow};
ghost use Rattle.std.specs.Str.Lines.{strip_carriage_return};

use crate::bytes::front_len;
use std::marker::Model;

/// How many bytes a line of a certificate or of a script has at most, its end not counted.
pub const MOST_LINE_BYTES: usize = 512;

/// One line of a text, without its line's end.
#[derive(Clone, Copy)]
pub struct Line<'a> {
    /// Where its first byte stands in the text, counted from 0; an empty line has the place where one would.
    pub start: usize,
    /// Its bytes, without the line feed and the one carriage return that end it.
    pub bytes: &'a [u8],
}

/// The lines of a text that are left, in order.
#[derive(Drop)]
pub struct Lines<'a> {
    text: &'a [u8],
    start: usize,
}

impl<'a> Model for Lines<'a> {
    ghost use Rattle.std.specs.Prelude.{List, drop, length, ◌≤◌};
    ghost use Rattle.ags_text.specs.Line.{LineAt, lines_in, parts};

    ghost Value = { List LineAt };

    ghost view = { λ s. lines_in s.start (parts (drop s.start s.text.now)) };

    ghost invariant = { λ s. s.start ≤ length s.text.now };
}

impl<'a> Lines<'a> {
    /// The lines of a text. They end at line feeds, and one carriage return before a line feed or at the
    /// very end belongs to the line's end. A last line without a line feed counts when it isn't empty.
    pub fn of(text: &'a [u8]) -> Lines<'a>
        ensures lines { result ≡ lines_of text.now }
        ensures follow { Follow text.now 0 result }
    {
        Lines { text, start: 0 }
    }
}

/// A line without the one carriage return at its end.
pub fn strip_return(part: &[u8]) -> &[u8]
    ensures { result.now ≡ strip_carriage_return part.now }
{
    match part {
        [line @ .., b'\r'] => line,
        line => line,
    }
}

impl<'a> Iterator for Lines<'a> {
    ghost use Rattle.std.specs.Iterator.{YieldsFirstBy, item_count};
    ghost use Rattle.ags_text.specs.LineView.{line_at};

    type Item = Line<'a>;

    ghost next_gives = { YieldsFirstBy line_at (λ s. s) };

    ghost remaining = { item_count (λ s. s) };

    fn next(&mut self) -> Option<Line<'a>> {
        let start = self.start;
        let rest = &self.text[start..];
        let feed = front_len(rest, b'\n');
        let bytes = strip_return(&rest[..feed]);
        if feed < rest.len() {
            self.start = start + feed + 1;
            return Some(Line { start, bytes });
        }
        self.start = self.text.len();
        if bytes.is_empty() {
            return None;
        }
        Some(Line { start, bytes })
    }
}
