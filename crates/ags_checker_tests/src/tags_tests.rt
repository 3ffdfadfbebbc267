//! Rows worked out by hand from the rules of texts of scales.

use crate::common::expect_same;
use ags_ports::Machine;
use ags_tags::{RowTag, RowTags, SCALES_LIMIT, Scales, Tag, read};
use std::alloc::Global;
use std::process::Abort;

/// A row of which nothing is stated.
const ANY: RowTags = RowTags {
    a: RowTag::Any,
    q: RowTag::Any,
};

/// What is told of scales: of the cells 0020, 2001 and 7777, the input register 2001 and the output register 6001; and of the rows 1 to 4.
type Told = ([Tag; 5], [RowTags; 4]);

/// Expects what scales of three rows say.
fn expect_scales(rt: &impl Abort, scales: &Scales, wanted: &Told) {
    let tags = [
        scales.cell(0o20),
        scales.cell(0o2001),
        scales.cell(0o7777),
        scales.input(0o2001),
        scales.output(0o6001),
    ];
    let rows = [scales.row(1), scales.row(2), scales.row(3), scales.row(4)];
    assert!(rt; (tags, rows) == *wanted);
}

/// The scales of a text for three rows on the standard machine.
fn scales_of(rt: &impl Abort, alloc: Global, text: &[u8]) -> Scales {
    assert!(rt; text.len() <= SCALES_LIMIT);
    read(alloc, text, &Machine::standard(), 3)
        .ok()
        .expect(rt, "scales")
}

/// What a text says that states nothing.
const NOTHING: Told = ([Tag::Raw; 5], [ANY; 4]);

/// What a text says that names one address in each way.
const NAMED: Told = (
    [
        Tag::Raw,
        Tag::Scale(-128),
        Tag::Scale(-5),
        Tag::Scale(127),
        Tag::Scale(0),
    ],
    [
        ANY,
        RowTags {
            a: RowTag::Known(Tag::Raw),
            q: RowTag::Any,
        },
        RowTags {
            a: RowTag::Known(Tag::Scale(-1)),
            q: RowTag::Known(Tag::Scale(6)),
        },
        ANY,
    ],
);

#[test]
fn scales_are_read(rt: HostRuntime) {
    let alloc = rt.alloc();
    expect_scales(&rt, &scales_of(&rt, alloc, b"AGSSCALE 1\nEND"), &NOTHING);
    let named =
        b"AGSSCALE 1\r\n# note\r\nCELL 2001 -128\n\n\tIN  2001 127 \nOUT 6001 -0\nCELL 7777 -000005\nROW 3 -1 006\nROW 02 RAW ANY\nEND\n \n#\n";
    expect_scales(&rt, &scales_of(&rt, alloc, named), &NAMED);
}
