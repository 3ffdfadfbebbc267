//! The comparison of two images: whether they agree at every location, or the least one at which they differ.
//! It stands on `ags_image`. The answer is pinned to a definition over the images' entries in `specs/`, and takes no memory.
#![tactic(auto)]

mod comparing;
mod laws;

pub use comparing::{Compared, compare};
pub use laws::images_compare_in_one_way;
