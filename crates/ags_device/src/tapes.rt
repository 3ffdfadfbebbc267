//! A device that gives the words of a list.

ghost use Rattle.std.specs.Prelude.{◌≡◌, [], Some, None};

use crate::Device;
use ags_word::Word;
use std::alloc::AllocError;
use std::marker::Model;

/// A tape: it gives its words, one after another, and hears nothing.
#[derive(Drop)]
pub struct Tape {
    address: u16,
    words: Vec<Word>,
    at: usize,
}

impl Model for Tape {
    ghost use Rattle.std.specs.Prelude.{◌≤◌, Some, None, [], drop, length};
    ghost use Rattle.ags_device.specs.Record.{DeviceRecord};

    ghost Value = { DeviceRecord };

    ghost view = { λ t. record { feeds = Some t.address; hears = None; plan = drop t.at t.words.items; kept = [] } };

    ghost invariant = { λ t. t.at ≤ length t.words.items };
}

impl Tape {
    /// A tape with these words at the input register at an address.
    pub fn new(address: u16, words: Vec<Word>) -> Tape
        ensures { result ≡ record { feeds = Some address; hears = None; plan = words.items; kept = [] } }
    {
        Tape {
            address,
            words,
            at: 0,
        }
    }
}

impl Device for Tape {
    ghost record_of = { λ t. t };

    fn feeds(&self) -> Option<u16> {
        Some(self.address)
    }

    fn hears(&self) -> Option<u16> {
        let _address = self.address;
        None
    }

    fn left(&self) -> u64 {
        (self.words.len() - self.at) as u64
    }

    fn next(&mut self) -> Option<Word> {
        if self.at < self.words.len() {
            let word = self.words[self.at];
            self.at += 1;
            Some(word)
        } else {
            None
        }
    }

    fn count(&self) -> u64 {
        let _address = self.address;
        0
    }

    fn last(&self) -> Option<Word> {
        let _address = self.address;
        None
    }

    // No call meets the condition of `hear`.
    fn hear(&mut self, _word: Word) -> Result<(), AllocError> {
        let _address = self.address;
        Ok(())
    }
}
