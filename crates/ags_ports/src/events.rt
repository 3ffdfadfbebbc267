//! What happens to the machine, and what is told of it.

use ags_word::Word;

/// Whether the machine runs orders.
#[derive(Clone, Copy, Debug, PartialEq, Eq)]
pub enum Phase {
    /// A step runs the order at the location.
    Running,
    /// The machine waits for a pulse.
    Waiting,
    /// The machine met a word that is no order, and stays as it is.
    Halted,
}

/// One action of one actor: of the processor, of the timer, or of a sensor or the panel.
#[derive(Clone, Copy)]
pub enum Event {
    /// The processor runs one order.
    Step,
    /// The timer gives one pulse.
    Pulse,
    /// A word is set into an input register.
    Put {
        /// The register's address.
        address: u16,
        /// The word.
        word: Word,
    },
}

/// A word and the address that it goes to: a cell's in a store, an output register's in OUT.
#[derive(Clone, Copy, PartialEq, Eq)]
pub struct Stored {
    /// The address.
    pub address: u16,
    /// The word.
    pub word: Word,
}

/// What one event makes of the machine: the report of a step.
#[derive(Clone, Copy, PartialEq, Eq)]
pub struct Done {
    /// Whether an order ran.
    pub ran: bool,
    /// The location before the event.
    pub location: u16,
    /// The word of that location's cell before the event.
    pub word: Word,
    /// Whether the order overflowed.
    pub overflow: bool,
    /// The order's store, to a fixed cell too, with the word that was to be stored.
    pub stored: Option<Stored>,
    /// The address that INP took from, whether there is a register or not.
    pub took: Option<u16>,
    /// The address that OUT gave to, whether there is a register or not, and the word.
    pub gave: Option<Stored>,
}
