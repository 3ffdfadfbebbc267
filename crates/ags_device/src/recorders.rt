//! A device that keeps what it hears.

ghost use Rattle.std.specs.Prelude.{◌≡◌, [], Some, None};

use crate::Device;
use crate::keeping::{keep, last_word};
use ags_word::Word;
use std::alloc::{AllocError, Global};
use std::marker::Model;

/// A recorder: it feeds nothing, and keeps what it hears.
#[derive(Drop)]
pub struct Recorder {
    address: u16,
    words: Vec<Word>,
}

impl Model for Recorder {
    ghost use Rattle.std.specs.Prelude.{Some, None, []};
    ghost use Rattle.ags_device.specs.Record.{DeviceRecord};

    ghost Value = { DeviceRecord };

    ghost view = { λ r. record { feeds = None; hears = Some r.address; plan = []; kept = r.words.items } };
}

impl Recorder {
    /// A recorder at the output register at an address, which has heard nothing. It takes memory once it hears.
    pub fn new(alloc: Global, address: u16) -> Recorder
        ensures { result ≡ record { feeds = None; hears = Some address; plan = []; kept = [] } }
    {
        Recorder {
            address,
            words: Vec::new(alloc),
        }
    }
}

impl Device for Recorder {
    ghost record_of = { λ r. r };

    fn feeds(&self) -> Option<u16> {
        let _address = self.address;
        None
    }

    fn hears(&self) -> Option<u16> {
        Some(self.address)
    }

    fn left(&self) -> u64 {
        let _address = self.address;
        0
    }

    fn next(&mut self) -> Option<Word> {
        let _address = self.address;
        None
    }

    fn count(&self) -> u64 {
        self.words.len() as u64
    }

    fn last(&self) -> Option<Word> {
        last_word(self.words.as_slice())
    }

    fn hear(&mut self, word: Word) -> Result<(), AllocError> {
        keep(&mut self.words, word)
    }
}
