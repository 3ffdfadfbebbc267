//! How large the machine's memory is. Each crate that counts locations, places or addresses takes these numbers.

/// How many locations the memory has: 4096, of which the erasable cells are the first. An address is below it.
pub const LOCATIONS: u16 = 4096;

/// How many of the locations are erasable cells: 2048. The first fixed one has this address.
pub const ERASABLE: u16 = 2048;
