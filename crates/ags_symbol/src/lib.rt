//! The symbols of a source with their values, and the sums that are written with them, also those of which some symbols
//! aren't defined yet. It stands on `ags_card` for names and terms, and on `indexmap`; each call is pinned by the definitions
//! in `specs/`.
#![tactic(auto)]

mod laws;
mod open_terms;
mod splitting;
mod sums;
mod symbol_lists;
mod symbols;

pub use laws::{pairs_are_found_by_name, sums_are_of_the_terms_values, sums_are_split};
pub use open_terms::OpenTerms;
pub use symbol_lists::SymbolList;
pub use symbols::{DefineError, Defined, Symbols};
