//! Listings.

ghost use Rattle.std.specs.Prelude.{◌≡◌, ◌≤◌, length};
ghost use Rattle.ags_files.specs.Reading.{ReadsBytes, ReadsFile, listing_reading};
ghost use Rattle.ags_listing.specs.Limit.{listing_limit};
ghost use Rattle.ags_outside.specs.Count.{HasCause};
ghost use Rattle.ags_plan.specs.Loading.{is_absence, is_read_fault};

use ags_image::Image;
use ags_listing::{LISTING_LIMIT, ListError};
use ags_outside::Shelf;
use ags_plan::{Unloaded, fetch_file};
use std::alloc::Global;

/// Reads a listing's bytes.
fn read_listing<'a>(alloc: Global, bytes: &[u8]) -> Result<Image, Unloaded<'a, ListError>>
    requires { length bytes.now ≤ listing_limit }
    ensures { ReadsBytes listing_reading bytes.now result }
{
    match ags_listing::read(alloc, bytes) {
        Ok(image) => Ok(image),
        Err(ListError::NoMemory) => Err(Unloaded::NoMemory),
        Err(error) => Err(Unloaded::Refused(error)),
    }
}

/// Loads the image of the listing of a name.
pub fn load_listing<'a, S: Shelf>(
    alloc: Global,
    name: &'a str,
    shelf: &mut S,
) -> Result<Image, Unloaded<'a, ListError>>
    ensures same { S.told shelf.new ≡ S.told shelf.old }
    ensures loads { ReadsFile listing_reading (S.told shelf.old name.entry.now) name.entry.now result }
    ensures faults { HasCause (S.faults shelf.old) (S.faults shelf.new) (is_read_fault result) }
    ensures absences { HasCause (S.absences shelf.old) (S.absences shelf.new) (is_absence result) }
{
    let bytes = fetch_file(alloc, shelf, name, LISTING_LIMIT as u64)?;
    read_listing(alloc, &bytes)
}
