//! The machine's numbers: a word of 18 bits, and the pair of two words that products and long shifts use.
//! It stands on `ags_text` for octal digits. Each operation is pinned to its formula over whole numbers in `specs/`,
//! its result and its overflow both, and no call takes memory. `laws` says what the formulas mean; the lemmas that
//! the crates above cite are listed at the heads of `proofs/WordLaws`, `proofs/LongLaws` and `proofs/RoundingLaws`.
#![tactic(auto, unfolding(crate::specs::Word::val, crate::specs::Word::fits, crate::specs::Word::wrap, crate::specs::Word::word_of_value, crate::specs::Long::long, crate::specs::Long::pair, crate::specs::Long::fits_long, crate::specs::Long::wrap_long, crate::specs::Long::divided))]

pub mod laws;
mod longs;
mod memory;
mod octals;
mod products;
mod six_digits;
mod sums;
mod whole;
mod words;

pub use longs::Long;
pub use memory::{ERASABLE, LOCATIONS};
pub use six_digits::SixDigits;
pub use words::Word;

// No clause can name a constant, so the number of each that is handed out is proved here.
const _: () = prove!(LOCATIONS == 4096);

const _: () = prove!(ERASABLE == 2048);
