//! The cross reference of a source: for each symbol its value, the card that defines it, and the cards that name it.
//! It stands on `ags_asm` for the source's cards and symbols, and on `ags_outside` for where it is written to; the sink gets
//! exactly the text that `specs/Xref` says of the source, or a front of it beside a refusal.
#![tactic(auto)]

mod gathering;
mod laws;
mod rows;
mod sending;
mod writing;

pub use laws::{naming_cards_ascend, pairs_by_name_ascend};
pub use sending::{XrefError, send_xref};
