//! The reader of listings.

ghost use Rattle.std.specs.Prelude.{◌≡◌, ◌≤◌, length, IfOk, IfErr};
ghost use Rattle.ags_listing.specs.ErrorText.{list_error};
ghost use Rattle.ags_listing.specs.Reads.{Reads, IsListingFault};
ghost use Rattle.ags_listing.specs.Limit.{listing_limit};

use crate::forms::Listing;
use crate::list_error::ListError;
use ags_image::{Image, ReadError, read_image};
use std::alloc::Global;

/// How many bytes a listing may have, at most.
pub const LISTING_LIMIT: usize = 134_217_728;

/// The same error of a listing.
fn list_error(error: ReadError) -> ListError
    ensures { result ≡ list_error error }
{
    match error {
        ReadError::BadLine { line } => ListError::BadLine { line },
        ReadError::PlaceTwice { line, location } => ListError::PlaceTwice { line, location },
        ReadError::NoMemory => ListError::NoMemory,
    }
}

/// Reads the words of a listing, or tells its first fault (docs/SOURCE.md, Listing). Its lines end at line feeds alone, and
/// the last line feed may be missing.
pub fn read(alloc: Global, bytes: &[u8]) -> Result<Image, ListError>
    requires { length bytes.now ≤ listing_limit }
    ensures image { IfOk result (Reads bytes.now) }
    ensures fault { IfErr result (IsListingFault bytes.now) }
{
    read_image::<Listing>(alloc, bytes).map_err(list_error)
}
