//! What several tests make, and what they assert.

use ags_asm::{AssembleError, Assembled, assemble};
use ags_isa::Codes;
use ags_word::Word;
use std::alloc::Global;
use std::fmt::Debug;
use std::process::Abort;

/// The word of a number.
pub(crate) fn cell(rt: &impl Abort, number: u32) -> Word {
    Word::of(number).expect(rt, "the number of a word")
}

/// What a source is assembled as by the standard codes.
pub(crate) fn assembled(
    rt: &impl Abort,
    alloc: Global,
    source: &[u8],
) -> Result<Assembled, AssembleError> {
    assert!(rt; source.len() <= 4_194_304);
    assemble(alloc, source, &Codes::standard())
}

/// Asserts that what is told is what is wanted.
pub(crate) fn expect_same<T: PartialEq + Debug>(rt: &impl Abort, told: &T, wanted: &T) {
    assert_eq!(rt; *told, *wanted);
}
