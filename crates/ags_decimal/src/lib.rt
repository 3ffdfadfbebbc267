//! The decimal numbers of a source: how one is read from its text, and the machine word that it stands for at its
//! binary scale. The word is the exact value rounded to the nearest, by one division of whole numbers and no float.
//! Both calls are pinned by definitions in `specs/`, and no call takes memory.
#![tactic(auto)]

mod decimals;
mod laws;
mod marks;
mod numbers;
mod sizes;

pub use decimals::{Decimal, read, word};
pub use laws::{reading_is_spelling, word_is_nearest};
