//! The cards of a source, their places, and the values of its symbols, as definitions and laws, with the faults of the phases
//! of cards and of places; and the placing of one card: it gives the card's symbol its value and tells where the next one stands.
#![tactic(auto)]

mod laws;
mod placed;
mod placing;
mod reading;
mod source_error;

pub use laws::{
    card_lines_follow, each_symbol_has_a_pair, kinds_are_printed_by_their_numbers,
    one_list_of_pairs_fits, places_are_sums, source_ends_at_its_first_end,
    words_stand_in_the_memory,
};
pub use placed::{Placed, count_of, place_of_word};
pub use placing::{Unplaced, place_card};
pub use reading::{SOURCE_LIMIT, is_end};
pub use source_error::{AssembleError, PlaceFault, SourceError, SourceKind, WordFault};

// No clause can name a constant, so the number of each that is handed out is proved here.
const _: () = prove!(SOURCE_LIMIT == 4_194_304);
