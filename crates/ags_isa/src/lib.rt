//! The machine's orders as words: the 27 orders and their names, the table of codes that stands in words for them, and
//! the words that they make with an index bit and an address. It stands on `ags_word` for the words. A word is read
//! exactly: as the one order that it names, and as none only where it names none. No call takes memory.
#![tactic(auto, unfolding(crate::specs::Naming::order_word))]

mod code_tables;
mod decoding;
pub mod laws;
mod orders;

pub use code_tables::Codes;
pub use decoding::{Decoded, decode, encode};
pub use orders::{Order, order_named};
