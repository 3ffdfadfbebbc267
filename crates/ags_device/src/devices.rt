//! One interface for what stands at the machine's registers.

ghost use Rattle.std.specs.Prelude.{◌≡◌, IsSome, OnOk, OnErr, length};
ghost use Rattle.ags_device.specs.Record.{DeviceRecord, first_of, last_of, given, having_heard};

use ags_word::Word;
use std::alloc::AllocError;

/// What feeds an input register, hears an output register, or both. Its two addresses never change (docs/DEVICES.md).
pub trait Device: Drop {
    /// Its four meanings: the addresses that it feeds and hears, the words that it will still give, and those that it has heard.
    ghost record_of: { Self → DeviceRecord };

    /// The address of the input register that it feeds.
    fn feeds(&self) -> Option<u16>
        ensures { result ≡ (record_of self.now).feeds };

    /// The address of the output register that it hears.
    fn hears(&self) -> Option<u16>
        ensures { result ≡ (record_of self.now).hears };

    /// How many words it will still give.
    fn left(&self) -> u64
        ensures { result ≡ length (record_of self.now).plan };

    /// The next word that it gives, which leaves its plan, and nothing once the plan is empty.
    fn next(&mut self) -> Option<Word>
        ensures word { result ≡ first_of (record_of self.old).plan }
        ensures rest { record_of self.new ≡ given (record_of self.old) };

    /// How many words it has heard.
    fn count(&self) -> u64
        ensures { result ≡ length (record_of self.now).kept };

    /// The last word that it has heard.
    fn last(&self) -> Option<Word>
        ensures { result ≡ last_of (record_of self.now).kept };

    /// Hears a word, where it hears any. It alone takes memory, and after want of that nothing is changed.
    fn hear(&mut self, word: Word) -> Result<(), AllocError>
        requires { IsSome (record_of self.old).hears }
        ensures heard { OnOk result (record_of self.new ≡ having_heard (record_of self.old) word) }
        ensures same { OnErr result (record_of self.new ≡ record_of self.old) };
}
