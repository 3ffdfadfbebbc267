//! What several tests make.

use ags_image::Image;
use ags_word::Word;
use std::alloc::Global;
use std::process::Abort;

/// The word of a number.
pub(crate) fn word(rt: &impl Abort, number: u32) -> Word {
    Word::of(number).expect(rt, "the number of a word")
}

/// An image with these words in its cells.
pub(crate) fn image_of(rt: &impl Abort, alloc: Global, cells: &[(u16, u32)]) -> Image {
    let mut image = Image::new(alloc).expect(rt, "memory for an image");
    for &(address, number) in cells {
        assert!(rt; address < 4096);
        image.set(address, word(rt, number));
    }
    image
}
