//! Files of 65,536 bytes of one value, each value as each kind of file. The expected lines are typed by hand from docs/SOURCE.md,
//! docs/SCRIPT.md, docs/CERTIFICATE.md and docs/MACHINE.md.

use crate::command_lines::{Answer, arguments_of, expect_same};
use crate::faults::command_lines::expect_over;
use ags_outside::{MemoryShelf, MemorySink};
use ags_top::{Status, ags_main};
use std::alloc::Global;
use std::process::Abort;

/// How many bytes the listing of so many empty cards has: 21 a line.
const EMPTY_LISTING: usize = 1_376_256;

/// The source S, which is that of the certificate and of the listing, the empty source E, and the file F of one byte, which has as many
/// as a machine file may.
fn shelf_with(rt: &impl Abort, alloc: Global, byte: u8) -> MemoryShelf {
    let file = vec![in alloc; byte; 65_536].expect(rt, "memory for a file");
    let mut shelf = MemoryShelf::new(alloc);
    assert!(rt; shelf.add("S", b" ORG /4000\n DLY /4000\n").is_ok());
    assert!(rt; shelf.add("E", b"").is_ok() && shelf.add("F", &file).is_ok());
    shelf
}

/// The file as each kind where it is line feeds: empty cards, a script without a line, and a document; but no certificate and no listing.
const OF_LINE_FEEDS: [Answer; 5] = [
    ("xref F", Status::Done, ""),
    ("run S F", Status::Done, ""),
    (
        "certify S F",
        Status::BadCert,
        "CERTIFICATE LINE 1 ERROR 1 BadLine\n",
    ),
    (
        "compare S F",
        Status::BadText,
        "LISTING LINE 1 ERROR 1 BadLine\n",
    ),
    ("xref E F", Status::Done, ""),
];

/// Where it is one card that is too long, and a document: an empty line, or a comment.
const OF_A_DOCUMENT: [Answer; 5] = [
    (
        "assemble F",
        Status::BadSource,
        "SOURCE CARD 0000001 ERROR 2 LongCard\n",
    ),
    (
        "run S F",
        Status::BadText,
        "SCRIPT LINE 1 ERROR 1 BadLine\n",
    ),
    (
        "certify S F",
        Status::BadCert,
        "CERTIFICATE LINE 1 ERROR 1 BadLine\n",
    ),
    (
        "compare S F",
        Status::BadText,
        "LISTING LINE 1 ERROR 1 BadLine\n",
    ),
    ("xref E F", Status::Done, ""),
];

/// Where it is one card that is too long, and no document.
const OF_A_LONG_CARD: [Answer; 5] = [
    (
        "assemble F",
        Status::BadSource,
        "SOURCE CARD 0000001 ERROR 2 LongCard\n",
    ),
    (
        "run S F",
        Status::BadText,
        "SCRIPT LINE 1 ERROR 1 BadLine\n",
    ),
    (
        "certify S F",
        Status::BadCert,
        "CERTIFICATE LINE 1 ERROR 1 BadLine\n",
    ),
    (
        "compare S F",
        Status::BadText,
        "LISTING LINE 1 ERROR 1 BadLine\n",
    ),
    ("xref E F", Status::BadMachine, "MACHINE ERROR 1 NotToml\n"),
];

/// Where the byte may stand in no card.
const OF_NO_CARD: [Answer; 5] = [
    (
        "assemble F",
        Status::BadSource,
        "SOURCE CARD 0000001 ERROR 1 BadByte\n",
    ),
    (
        "run S F",
        Status::BadText,
        "SCRIPT LINE 1 ERROR 1 BadLine\n",
    ),
    (
        "certify S F",
        Status::BadCert,
        "CERTIFICATE LINE 1 ERROR 1 BadLine\n",
    ),
    (
        "compare S F",
        Status::BadText,
        "LISTING LINE 1 ERROR 1 BadLine\n",
    ),
    ("xref E F", Status::BadMachine, "MACHINE ERROR 1 NotToml\n"),
];

/// What comes of a file of this byte.
fn answers_of(byte: u8) -> &'static [Answer<'static>] {
    match byte {
        b'\n' => &OF_LINE_FEEDS,
        b'\t' | b' ' | b'#' => &OF_A_DOCUMENT,
        b' '..=b'~' => &OF_A_LONG_CARD,
        _ => &OF_NO_CARD,
    }
}

#[test]
fn each_byte_as_each_kind_of_file(rt: HostRuntime) {
    for byte in 0u8..=255 {
        let mut shelf = shelf_with(&rt, rt.alloc(), byte);
        for answer in answers_of(byte) {
            expect_over(&rt, &byte, &mut shelf, 9, *answer);
        }
    }
}

#[test]
fn line_feeds_are_empty_cards(rt: HostRuntime) {
    let alloc = rt.alloc();
    let mut shelf = shelf_with(&rt, alloc, b'\n');
    let mut out = MemorySink::new(alloc, 4096);
    let arguments = arguments_of(&rt, alloc, "assemble F");
    let ended = ags_main(alloc, &arguments, &mut shelf, &mut out);
    expect_same(
        &rt,
        &(ended, out.bytes().len()),
        &(Status::Done, EMPTY_LISTING),
    );
}
