//! Listings: the writer of a source's listing, and the reader of listings (docs/SOURCE.md, Listing). It stands on
//! `ags_asm` for sources, on `ags_image` for texts whose lines put words at places, and on `ags_outside` for where
//! a listing is written to. The text of a listing and what the bytes of one read as are defined apart in `specs/`, and
//! a law joins them: a written listing reads back as the words that its source defines.
#![tactic(auto)]

mod forms;
mod laws;
mod list_error;
mod reading;
mod writing;

pub use laws::{
    listing_reads_or_has_a_fault, printed_listing_reads_back, written_listing_reads_back,
};
pub use list_error::ListError;
pub use reading::{LISTING_LIMIT, read};
pub use writing::send_listing;

// No clause can name a constant, so the number of each that is handed out is proved here.
const _: () = prove!(LISTING_LIMIT == 134_217_728);
