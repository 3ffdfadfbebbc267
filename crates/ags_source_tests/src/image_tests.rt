//! Rows over one image. Each location that no row sets has no word.

use crate::common::{cell, expect_same};
use ags_image::Image;
use ags_word::Word;
use std::process::Abort;

/// The words that are set, in this order: the second row of location 4000 stands in place of the first, and a word 0 that is
/// set is a word.
const SET: [(u16, u32); 5] = [
    (0o0000, 0o777777),
    (0o4000, 0o000007),
    (0o4000, 0o230200),
    (0o4002, 0o000000),
    (0o7777, 0o404001),
];

/// Locations, and the word that each has then, if it has one.
const HELD: [(u16, Option<u32>); 8] = [
    (0o0000, Some(0o777777)),
    (0o0001, None),
    (0o3777, None),
    (0o4000, Some(0o230200)),
    (0o4001, None),
    (0o4002, Some(0o000000)),
    (0o7776, None),
    (0o7777, Some(0o404001)),
];

/// Locations of an image in which nothing was set.
const EMPTY: [u16; 5] = [0o0000, 0o0001, 0o4000, 0o7776, 0o7777];

/// A location has the word of this number, or none, which reads as 0.
fn expect_held(rt: &impl Abort, image: &Image, location: u16, number: Option<u32>) {
    assert!(rt; location < 4096);
    let told = image.get(location).map(Word::number);
    expect_same(
        rt,
        &(location, told, image.word_at(location).number()),
        &(location, number, number.unwrap_or(0)),
    );
}

#[test]
fn words_are_held(rt: HostRuntime) {
    let mut image = Image::new(rt.alloc()).expect(&rt, "memory for an image");
    for &location in &EMPTY {
        expect_held(&rt, &image, location, None);
    }
    for &(location, number) in &SET {
        assert!(rt; location < 4096);
        image.set(location, cell(&rt, number));
        expect_held(&rt, &image, location, Some(number));
    }
    for &(location, number) in &HELD {
        expect_held(&rt, &image, location, number);
    }
}
