//! Why a source isn't assembled (docs/SOURCE.md, Faults).

ghost use Rattle.std.specs.Prelude.{◌≡◌};

use ags_card::CardFault;
use ags_text::SevenDigits;
use std::alloc::{AllocError, AllocFailed};
use std::fmt;

/// Why a card isn't placed: the faults of the phase of places.
#[derive(Clone, Copy, PartialEq, Eq)]
pub enum PlaceFault {
    /// Number 10: an earlier card, `first`, defines the symbol.
    SymbolTwice {
        /// The earlier card's number, counted from 1.
        first: u32,
    },
    /// Number 11: an ORG, EQU, SYN, BSS or BES uses a symbol that no earlier card defines.
    UndefinedEarly,
    /// Number 12: a place or a value is out of its limits.
    PlaceRange,
}

/// Why a card has no words: the faults of the phase of words.
#[derive(Clone, Copy, PartialEq, Eq)]
pub enum WordFault {
    /// Number 13: an order uses a symbol that no card defines.
    Undefined,
    /// Number 14: the operand of an order comes to `value`, which is no address.
    AddressRange {
        /// What the operand comes to.
        value: i32,
    },
    /// Number 15: some value of a DEC is no word's.
    ValueRange,
    /// Number 16: an earlier card has a word at one of the card's places; `first` has one at the least such place.
    PlaceTwice {
        /// The earlier card's number, counted from 1.
        first: u32,
    },
}

/// What is wrong with a card, by the phase that finds it.
#[derive(Clone, Copy, PartialEq, Eq)]
pub enum SourceKind {
    /// Numbers 1 to 9: the line is no card.
    Card(CardFault),
    /// Numbers 10 to 12: the card isn't placed.
    Place(PlaceFault),
    /// Numbers 13 to 16: the card has no words.
    Word(WordFault),
}

/// The first fault of a source.
#[derive(Clone, Copy, PartialEq, Eq)]
pub struct SourceError {
    /// The faulty card's number, counted from 1.
    pub card: u32,
    /// What is wrong with it.
    pub kind: SourceKind,
}

/// Why a source wasn't assembled.
#[derive(Clone, Copy)]
pub enum AssembleError {
    /// It has this fault.
    Source(SourceError),
    /// The memory didn't suffice.
    NoMemory,
}

/// Prints the fault as it stands in the line of a source's fault: its number and its name, and the first card's number where two
/// are at odds.
impl fmt::Display for PlaceFault {
    ghost use Rattle.std.specs.Prelude.{Some};
    ghost use Rattle.ags_places.specs.FaultText.{place_fault_text};

    ghost output = { λ fault. Some (place_fault_text fault) };

    fn fmt<W: fmt::Write>(&self, f: &mut fmt::Formatter<W>) -> fmt::Result {
        match self {
            PlaceFault::SymbolTwice { first } => {
                let first = SevenDigits(*first);
                write!(f, "10 SymbolTwice {first}")
            }
            PlaceFault::UndefinedEarly => f.write_str("11 UndefinedEarly"),
            PlaceFault::PlaceRange => f.write_str("12 PlaceRange"),
        }
    }
}

/// Prints the fault likewise, and the value that is out of range.
impl fmt::Display for WordFault {
    ghost use Rattle.std.specs.Prelude.{Some};
    ghost use Rattle.ags_places.specs.FaultText.{word_fault_text};

    ghost output = { λ fault. Some (word_fault_text fault) };

    fn fmt<W: fmt::Write>(&self, f: &mut fmt::Formatter<W>) -> fmt::Result {
        match self {
            WordFault::Undefined => f.write_str("13 Undefined"),
            WordFault::AddressRange { value } => write!(f, "14 AddressRange {value}"),
            WordFault::ValueRange => f.write_str("15 ValueRange"),
            WordFault::PlaceTwice { first } => {
                let first = SevenDigits(*first);
                write!(f, "16 PlaceTwice {first}")
            }
        }
    }
}

/// Prints the fault of its phase.
impl fmt::Display for SourceKind {
    ghost use Rattle.std.specs.Prelude.{Some};
    ghost use Rattle.ags_places.specs.FaultText.{kind_text};

    ghost output = { λ kind. Some (kind_text kind) };

    fn fmt<W: fmt::Write>(&self, f: &mut fmt::Formatter<W>) -> fmt::Result {
        match self {
            SourceKind::Card(fault) => write!(f, "{fault}"),
            SourceKind::Place(fault) => write!(f, "{fault}"),
            SourceKind::Word(fault) => write!(f, "{fault}"),
        }
    }
}

/// Prints the line of a source's fault, without a line feed.
impl fmt::Display for SourceError {
    ghost use Rattle.std.specs.Prelude.{Some};
    ghost use Rattle.ags_places.specs.FaultText.{fault_text};

    ghost output = { λ error. Some (fault_text error) };

    fn fmt<W: fmt::Write>(&self, f: &mut fmt::Formatter<W>) -> fmt::Result {
        let card = SevenDigits(self.card);
        let kind = self.kind;
        write!(f, "SOURCE CARD {card} ERROR {kind}")
    }
}

impl From<AllocError> for AssembleError {
    ghost use Rattle.ags_places.specs.declared.source_error.AssembleError.TheVariants.{NoMemory};

    ghost from_gives = { λ _ error. error ≡ NoMemory };

    fn from(_error: AllocError) -> AssembleError {
        AssembleError::NoMemory
    }
}

impl<T: Drop> From<AllocFailed<T>> for AssembleError {
    ghost use Rattle.ags_places.specs.declared.source_error.AssembleError.TheVariants.{NoMemory};

    ghost from_gives = { λ _ error. error ≡ NoMemory };

    fn from(_error: AllocFailed<T>) -> AssembleError {
        AssembleError::NoMemory
    }
}
