//! What stands on a card of a source: the card that a line is, or its least fault. `read_card` is pinned by a computing
//! definition in `specs/`, and laws say that it is the spelling of cards, both ways. No call takes memory.
#![tactic(auto)]

mod bodies;
mod cards;
mod expressions;
mod fields;
mod laws;
mod lists;
mod names;
mod operands;
mod operations;
mod reading;
mod reading_laws;
mod terms;

pub use cards::{Body, Card, CardFault};
pub use laws::symbols_are_capitals_and_digits;
pub use lists::{DecList, MOST_CONSTANTS, OctList};
pub use names::Name;
pub use reading::{is_comment_card, read_card, read_card_into};
pub use reading_laws::{
    cards_keep_to_their_form, each_line_is_a_card_or_has_a_fault, lines_spell_what_is_read,
};
pub use terms::{Atom, MOST_TERMS, Term, Terms};

// No clause can name a constant, so the number of each that is handed out is proved here.
const _: () = prove!(MOST_CONSTANTS == 64);

const _: () = prove!(MOST_TERMS == 64);
