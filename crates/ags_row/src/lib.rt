//! What the checker of scaling knows of the machine at one location: a row says which words A, Q and some cells may
//! hold there, and which index and which indicator may stand. Limits say what every other cell and each port may hold,
//! and a post what one order leaves of a row. It stands on `ags_domain` for the sets of words. `covers` says exactly
//! whether a row holds all that a post says. No call takes memory but the one that makes limits.
#![tactic(auto, unfolding(crate::specs::Limit::cell_limit, crate::specs::Limit::input_limit, crate::specs::Limit::output_limit, crate::specs::Limit::is_named, crate::specs::Cover::cell_value, crate::specs::Cover::post_value))]

mod ats;
mod cells;
mod coverage;
mod limits;
mod links;
mod posts;
mod rows;

pub use ats::At;
pub use coverage::{cell_of, covers};
pub use limits::Limits;
pub use links::{Link, is_link};
pub use posts::Post;
pub use rows::{MOST_CELLS, Row, RowParts};

// No clause can name a constant, so the number of each that is handed out is proved here.
const _: () = prove!(MOST_CELLS == 64);
