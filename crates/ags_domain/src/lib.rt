//! Sets of words as the checker of scaling knows them: ranges between two values, and lists of a few words. It stands
//! on `ags_word`, whose operations it carries over to whole intervals. Each arithmetic function answers the least
//! interval of all new A, or operands that overflow exactly where some do; the laws of a domain stand in
//! `specs/Domain`.
#![tactic(auto)]

mod domains;
mod gathering;
mod hulls;
mod inclusion;
mod named_words;
mod operands;
mod products;
mod quotients;
mod range_domain;
mod ranged_answers;
mod ranges;
mod shifts;
mod signs;
mod sums;
mod texts;
mod value_domain;
mod values;
mod word_lists;
mod word_sets;

pub use domains::Domain;
pub use operands::Operands;
pub use ranges::Range;
pub use values::Value;
pub use word_lists::MOST_WORDS;
pub use word_sets::WordSet;

// No clause can name a constant, so the number of each that is handed out is proved here.
const _: () = prove!(MOST_WORDS == 16);
