//! What several tests make, and what they assert.

use ags_outside::SteadyShelf;
use std::alloc::Global;
use std::process::Abort;

/// A shelf to which these files were added, one after the other.
pub(crate) fn shelf_of(rt: &impl Abort, alloc: Global, files: &[(&str, &[u8])]) -> SteadyShelf {
    let mut shelf = SteadyShelf::new(alloc);
    for file in files {
        assert!(rt; shelf.add(file.0, file.1).is_ok());
    }
    shelf
}
