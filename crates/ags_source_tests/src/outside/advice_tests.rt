//! What standard error says of endings that no command line shows: of a line that tells too little, of a file without a name, and of
//! what has no reason (docs/COMMANDS.md, Standard error).

use ags_advice::{Advice, Program, Seen};
use std::alloc::Global;
use std::process::Abort;

/// What was seen of a run whose output is empty, where the file looked for last is F.
const SEEN: Seen<'static> = Seen {
    is_text: true,
    line: "",
    file: Some("F"),
    certificate: Some("C"),
    unread: None,
    unwritten: None,
};

/// Expects what is said of a run of `ags` that ended with a status.
fn expect_said(rt: &impl Abort, alloc: Global, status: u8, seen: Seen<'_>, wanted: &str) {
    let advice = Advice::of(Program::Ags, status, seen).expect(rt, wanted);
    let said = format!(in alloc; "{advice}").expect(rt, "memory for what is said");
    assert!(rt; said.as_str() == wanted, "{status} {wanted}");
}

/// What is said of a line without a heading.
const NO_HEADING: &str = "the run ended with status 2 (docs/COMMANDS.md)";

/// The status of a run, the last line of its output, and what is said.
const LINES: [(u8, &str, &str); 8] = [
    (2, "", NO_HEADING),
    (2, "\n", NO_HEADING),
    (2, "source CARD 0000001 ERROR 9 BadOctal", NO_HEADING),
    (2, "SOURCES", NO_HEADING),
    // a kind that has no row names the page
    (
        2,
        "SOURCE CARD 0000001 ERROR 99 Unheard",
        "F:1: Unheard: docs/SOURCE.md, Faults, has the kinds",
    ),
    (5, "", "F: it can't be read"),
    (6, "", "the output can't be written"),
    (11, "", "memory ran out"),
];

#[test]
fn endings_that_tell_too_little(rt: HostRuntime) {
    let alloc = rt.alloc();
    for &(status, line, said) in &LINES {
        expect_said(&rt, alloc, status, Seen { line, ..SEEN }, said);
    }
    let unnamed = Seen { file: None, ..SEEN };
    expect_said(&rt, alloc, 5, unnamed, "a file: it can't be read");
}
