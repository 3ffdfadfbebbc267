//! Why a machine file isn't read.

use crate::keys::Key;
use ags_isa::Order;
use ags_text::FourDigits;
use std::fmt;

/// Why a machine file wasn't read: the first test that it fails, in the order of docs/MACHINE.md (Machine files), or want of
/// memory.
#[derive(Clone, Copy)]
pub enum MachError {
    /// Number 1: the bytes are no TOML document in UTF-8.
    NotToml,
    /// Number 2: a table lacks an order, or an entry its address.
    MissingKey {
        /// The key that is missing; of an address, that of its entry.
        which: Key,
    },
    /// Number 3: the value of a key is not of its kind, or out of its limits.
    BadValue {
        /// The key; of a value in an entry, that of the entry.
        which: Key,
    },
    /// Number 4: two orders have one code. Of all such pairs it is the least in alphabetical order.
    SameCode {
        /// The pair's first order.
        first: Order,
        /// The pair's second order.
        second: Order,
    },
    /// Number 5: an earlier entry of the same direction has the entry's address.
    SamePort {
        /// The address, below 4096.
        address: u16,
    },
    /// The memory didn't suffice.
    NoMemory,
}

/// Prints the line of a machine file's fault, without a line feed, and nothing where memory didn't suffice.
impl fmt::Display for MachError {
    ghost use Rattle.std.specs.Prelude.{Some};
    ghost use Rattle.ags_machfile.specs.FaultText.{fault_text};

    ghost output = { λ error. Some (fault_text error) };

    fn fmt<W: fmt::Write>(&self, f: &mut fmt::Formatter<W>) -> fmt::Result {
        match self {
            MachError::NotToml => f.write_str("MACHINE ERROR 1 NotToml"),
            MachError::MissingKey { which } => write!(f, "MACHINE ERROR 2 MissingKey {which}"),
            MachError::BadValue { which } => write!(f, "MACHINE ERROR 3 BadValue {which}"),
            MachError::SameCode { first, second } => {
                let first = first.name();
                let second = second.name();
                write!(f, "MACHINE ERROR 4 SameCode {first} {second}")
            }
            MachError::SamePort { address } => {
                let address = FourDigits(*address);
                write!(f, "MACHINE ERROR 5 SamePort {address}")
            }
            MachError::NoMemory => Ok(()),
        }
    }
}
