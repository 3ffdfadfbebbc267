//! The assembler: from a source's bytes to the image of its words, its cards with their places and words, and its
//! symbols, or to its first fault. It reads each card once: an order whose symbols aren't all defined yet leaves a fix-up,
//! which the end of the source closes. `ags_places` places the cards, and `assemble` answers exactly what the definitions in
//! `specs/` say of the text, which speak of no pass.
#![tactic(auto)]

mod assembling;
mod building;
mod closing;
mod fix_ups;
mod half_words;
mod laws;
mod making;
mod passing;

pub use ags_places::{
    AssembleError, PlaceFault, Placed, SOURCE_LIMIT, SourceError, SourceKind, WordFault,
};
pub use assembling::{Assembled, assemble};
pub use building::Building;
pub use laws::{
    each_card_has_its_definition, each_text_has_a_meaning, least_fault_is_told,
    owner_is_the_nearest_earlier_card, source_defines_each_place_once,
    source_defines_words_of_the_memory, source_means_one_thing,
};

// No clause can name a constant, so the number that is handed out is proved here.
const _: () = prove!(SOURCE_LIMIT == 4_194_304);
