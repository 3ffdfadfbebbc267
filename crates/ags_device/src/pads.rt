//! A device that gives digits, and keeps what it hears.

ghost use Rattle.std.specs.Prelude.{◌≡◌, ◌↔◌, ◌≤◌, ◌<◌, [], Some, None, IsNone, IsTrue, IfSome, map};
ghost use Rattle.std.specs.List.{Any};
ghost use Rattle.ags_device.specs.Plan.{digit_word};

use crate::Device;
use crate::keeping::{keep, last_word};
use ags_word::Word;
use std::alloc::{AllocError, Global};
use std::marker::Model;

/// A pad: it gives 16 + d for each of its digits d, and keeps what it hears. It may feed and hear the same address.
#[derive(Drop)]
pub struct Pad {
    feed: u16,
    hear: u16,
    digits: Vec<u8>,
    at: usize,
    words: Vec<Word>,
}

impl Model for Pad {
    ghost use Rattle.std.specs.Prelude.{◌≤◌, Some, drop, length, map};
    ghost use Rattle.ags_device.specs.Plan.{digit_word};
    ghost use Rattle.ags_device.specs.Record.{DeviceRecord};

    ghost Value = { DeviceRecord };

    ghost view = { λ p. record { feeds = Some p.feed; hears = Some p.hear; plan = map digit_word (drop p.at p.digits.items); kept = p.words.items } };

    ghost invariant = { λ p. p.at ≤ length p.digits.items };
}

impl Pad {
    /// A pad with these digits at the input register and the output register at two addresses, which has heard nothing; none
    /// where a digit is above 15. It takes memory once it hears.
    pub fn new(alloc: Global, feed: u16, hear: u16, digits: Vec<u8>) -> Option<Pad>
        ensures some { IfSome result (λ pad. pad ≡ record { feeds = Some feed; hears = Some hear; plan = map digit_word digits.items; kept = [] }) }
        ensures none { IsNone result ↔ Any (λ digit. 15 < digit) digits.items }
    {
        if has_no_digit(digits.as_slice()) {
            return None;
        }
        Some(Pad {
            feed,
            hear,
            digits,
            at: 0,
            words: Vec::new(alloc),
        })
    }
}

/// Whether one of these isn't a digit.
fn has_no_digit(digits: &[u8]) -> bool
    ensures { IsTrue result ↔ Any (λ digit. 15 < digit) digits.now }
{
    digits.iter().any(|digit| *digit > 15)
}

/// The word that is given for a digit.
fn word_of_digit(digit: u8) -> Word
    ensures { result ≡ digit_word digit }
{
    Word::of(16 + u32::from(digit)).unwrap()
}

impl Device for Pad {
    ghost record_of = { λ p. p };

    fn feeds(&self) -> Option<u16> {
        Some(self.feed)
    }

    fn hears(&self) -> Option<u16> {
        Some(self.hear)
    }

    fn left(&self) -> u64 {
        (self.digits.len() - self.at) as u64
    }

    fn next(&mut self) -> Option<Word> {
        if self.at < self.digits.len() {
            let word = word_of_digit(self.digits[self.at]);
            self.at += 1;
            Some(word)
        } else {
            None
        }
    }

    fn count(&self) -> u64 {
        self.words.len() as u64
    }

    fn last(&self) -> Option<Word> {
        last_word(self.words.as_slice())
    }

    fn hear(&mut self, word: Word) -> Result<(), AllocError> {
        keep(&mut self.words, word)
    }
}
