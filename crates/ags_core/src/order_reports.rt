//! What an order reports beside the state that it leaves.

ghost use Rattle.std.specs.Prelude.{◌≡◌, true, None, Some};

use ags_ports::{Done, Stored};
use ags_word::Word;

/// What an order reports: whether it overflowed, its store, and what it took and gave.
#[derive(Clone, Copy)]
pub(crate) struct OrderReport {
    /// Whether the order overflowed.
    pub overflow: bool,
    /// The order's store.
    pub stored: Option<Stored>,
    /// The address that it took an input from.
    pub took: Option<u16>,
    /// The address that it gave a word to, and the word.
    pub gave: Option<Stored>,
}

impl OrderReport {
    /// Nothing but whether the order overflowed.
    pub(crate) fn of(overflow: bool) -> OrderReport
        ensures { result ≡ record { overflow = overflow; stored = None; took = None; gave = None } }
    {
        OrderReport {
            overflow,
            stored: None,
            took: None,
            gave: None,
        }
    }

    /// Whether the order overflowed, and its store.
    pub(crate) fn of_store(overflow: bool, address: u16, word: Word) -> OrderReport
        ensures { result ≡ record {
          overflow = overflow;
          stored = Some (record { address = address; word = word });
          took = None;
          gave = None;
        } }
    {
        OrderReport {
            overflow,
            stored: Some(Stored { address, word }),
            took: None,
            gave: None,
        }
    }

    /// The report of a step whose order was read from this word at this location.
    pub(crate) fn ran(self, location: u16, word: Word) -> Done
        ensures { result ≡ record {
          ran = true;
          location = location;
          word = word;
          overflow = self.overflow;
          stored = self.stored;
          took = self.took;
          gave = self.gave;
        } }
    {
        Done {
            ran: true,
            location,
            word,
            overflow: self.overflow,
            stored: self.stored,
            took: self.took,
            gave: self.gave,
        }
    }
}
