//! A device that ramps.

ghost use Rattle.std.specs.Prelude.{◌≡◌, ◌^◌, [], Some, None, pos, neg_ℤ, ◌≤ℤ◌, ◌<ℤ◌, ◌*ℤ◌};
ghost use Rattle.ags_word.specs.Word.{wrap};
ghost use Rattle.ags_device.specs.Plan.{reading, readings};

use crate::Device;
use ags_word::Word;
use std::alloc::AllocError;
use std::marker::Model;

/// How many words there are: 2^18.
const WORDS: i64 = 262_144;

/// A sensor: it gives so many readings of a ramp, which goes on by a word's value from one to the next, and hears nothing. What
/// has no room in a word is wrapped. No reading is kept, however many there are.
#[derive(Drop)]
pub struct Sensor {
    address: u16,
    first: Word,
    by: Word,
    given: u32,
    count: u32,
}

impl Model for Sensor {
    ghost use Rattle.std.specs.Prelude.{◌≤◌, ◌-◌, Some, None, []};
    ghost use Rattle.ags_device.specs.Plan.{readings};
    ghost use Rattle.ags_device.specs.Record.{DeviceRecord};

    ghost Value = { DeviceRecord };

    ghost view = { λ s. record { feeds = Some s.address; hears = None; plan = readings s.first s.by s.given (s.count - s.given); kept = [] } };

    ghost invariant = { λ s. s.given ≤ s.count };
}

impl Sensor {
    /// A sensor at the input register at an address, with so many readings: the first one, and each further one by a word's value
    /// more.
    pub fn new(address: u16, first: Word, by: Word, count: u32) -> Sensor
        ensures { result ≡ record { feeds = Some address; hears = None; plan = readings first by 0 count; kept = [] } }
    {
        Sensor {
            address,
            first,
            by,
            given: 0,
            count,
        }
    }
}

/// The reading at a position.
fn reading_at(first: Word, by: Word, position: u32) -> Word
    ensures { result ≡ reading first by position }
{
    wrapped(i64::from(first.value()) + rise(position, by.value()))
}

/// The word that is left of a whole number.
#[tactic(auto, unfolding(ags_word::specs::Word::wrap))]
fn wrapped(value: i64) -> Word
    ensures { result ≡ wrap value }
{
    Word::of(value.rem_euclid(WORDS) as u32).unwrap()
}

/// How much the ramp rises up to a position.
fn rise(position: u32, step: i32) -> i64
    requires least { neg_ℤ (pos (2 ^ 17)) ≤ℤ step }
    requires most { step <ℤ pos (2 ^ 17) }
    ensures same { result ≡ pos position *ℤ step }
    ensures least { neg_ℤ (pos (2 ^ 49)) ≤ℤ result }
    ensures most { result ≤ℤ pos (2 ^ 49) }
{
    i64::from(position) * i64::from(step)
}

impl Device for Sensor {
    ghost record_of = { λ s. s };

    fn feeds(&self) -> Option<u16> {
        Some(self.address)
    }

    fn hears(&self) -> Option<u16> {
        let _address = self.address;
        None
    }

    fn left(&self) -> u64 {
        u64::from(self.count - self.given)
    }

    fn next(&mut self) -> Option<Word> {
        if self.given < self.count {
            let word = reading_at(self.first, self.by, self.given);
            self.given += 1;
            Some(word)
        } else {
            None
        }
    }

    fn count(&self) -> u64 {
        let _address = self.address;
        0
    }

    fn last(&self) -> Option<Word> {
        let _address = self.address;
        None
    }

    // No call meets the condition of `hear`.
    fn hear(&mut self, _word: Word) -> Result<(), AllocError> {
        let _address = self.address;
        Ok(())
    }
}
