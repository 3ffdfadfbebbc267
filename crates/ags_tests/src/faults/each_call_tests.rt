//! Each command over files whose pulls fail one at a time, and into a sink whose puts do. What is printed before a fault is typed by hand
//! from the README's tables.

use crate::command_lines::{expect_same, repeated};
use crate::faults::command_lines::{FIRST_LISTING, expect_into, expect_over, files_without};
use ags_decks::DECK_LISTING;
use ags_outside::{MemorySink, PutDone, Sink};
use ags_top::Status;
use std::process::Abort;

/// How many bytes are put at once where each line is one put.
const WHOLE_LINES: usize = 4096;

/// Runs a command line that makes so many pulls, of which each fails alone: nothing is put. Where none fails, its text is.
fn fail_each_pull(rt: &(impl AllocGlobal + Abort), line: &str, pulls: u64, text: &str) {
    for passed in 0..pulls.saturating_add(1) {
        let mut shelf = files_without(rt, rt.alloc(), "");
        assert!(rt; shelf.fail_at(passed + 1).is_ok());
        let answer = if passed < pulls {
            (line, Status::ReadFault, "")
        } else {
            (line, Status::Done, text)
        };
        expect_over(rt, &passed, &mut shelf, WHOLE_LINES, answer);
    }
}

/// Runs a command line of which one put fails, and expects its status and what is put before.
fn fail_put(rt: &(impl AllocGlobal + Abort), most: usize, put: u64, answer: (&str, Status, &str)) {
    let alloc = rt.alloc();
    let mut shelf = files_without(rt, alloc, "");
    let mut out = MemorySink::new(alloc, most.max(1));
    assert!(rt; out.fail_at(put).is_ok());
    expect_into(rt, &put, &mut shelf, &mut out, answer);
}

/// Runs a command line that puts a text line by line, or byte by byte, of which each put fails alone: what stands before it is put.
fn fail_each_put(rt: &(impl AllocGlobal + Abort), line: &str, most: usize, text: &str) {
    let mut put = 1u64;
    let mut begins = true;
    for (cut, byte) in text.bytes().enumerate() {
        if begins || most == 1 {
            let front = text.get(..cut).expect(rt, "a text of ASCII");
            fail_put(rt, most, put, (line, Status::WriteFault, front));
            put = put.saturating_add(1);
        }
        begins = byte == b'\n';
    }
    fail_put(rt, most, put, (line, Status::Done, text));
}

/// What the deck's script shows.
const SHOWN: &str = "CELL 0020 001750\nA 777777 Q 404012 X 0 V 0 P 4000 W\nDEDA |047?????? |\n";

/// A command line, how many pulls it makes, how many lines it prints, and those in two parts. Each file takes two pulls: its bytes, and
/// its end.
const CALLS: [(&str, u64, usize, &str, &str); 12] = [
    ("assemble S", 2, 3, FIRST_LISTING, ""),
    ("compare S L", 4, 1, "EQUAL\n", ""),
    ("tape S", 2, 1, "4000 000007\n", ""),
    ("xref S", 2, 1, "A         2048 0000003\n", ""),
    (
        "xref N",
        2,
        4,
        "B         2050 0000006 0000008\nN        -2047 0000005 0000006\nT         2048 0000002 0000002 0000003 0000005\n",
        "Z9        2114 0000009\n",
    ),
    // a workload reads no file
    (
        "workload 1",
        0,
        1,
        "WORKLOAD 1 CARDS 13 WORDS 9 ROWS 9 CASES 9 CERTIFIED\n",
        "",
    ),
    // the 40 lines of the listing, and the verdict
    (
        "certify D C",
        4,
        41,
        DECK_LISTING,
        "CERTIFIED ROWS 31 CASES 32\n",
    ),
    ("run D P", 4, 3, SHOWN, ""),
    ("guard D P C", 6, 4, "CERTIFIED ROWS 31 CASES 32\n", SHOWN),
    (
        "budget D K T",
        6,
        2,
        "CERTIFIED ROWS 44 CASES 44\nWITHIN 492\n",
        "",
    ),
    (
        "scales A B E",
        6,
        2,
        "CERTIFIED ROWS 5 CASES 5\nSCALES AGREE\n",
        "",
    ),
    // the verdict and the line of each edit are sent one by one
    (
        "edits R Q U",
        6,
        3,
        "CERTIFIED ROWS 5 CASES 5\n",
        "EDIT 1 REFUSED 3 CodeUnknown ROW 5\nEDIT 2 CERTIFIED ROWS 5 CASES 5\n",
    ),
];

#[test]
fn each_command_is_cut_off_at_each_call(rt: HostRuntime) {
    for &(line, pulls, lines, front, end) in &CALLS {
        let text = repeated(&rt, rt.alloc(), front, end, 1);
        expect_same(&rt, &(line, text.as_str().lines().count()), &(line, lines));
        fail_each_pull(&rt, line, pulls, &text);
        fail_each_put(&rt, line, WHOLE_LINES, &text);
        fail_each_put(&rt, line, 1, &text);
    }
}

// Two faults at once: after a pull that failed no put is made, so the first put is still to come, and fails.
#[test]
fn the_second_of_two_faults_is_not_reached(rt: HostRuntime) {
    let alloc = rt.alloc();
    let mut shelf = files_without(&rt, alloc, "");
    let mut out = MemorySink::new(alloc, WHOLE_LINES);
    assert!(&rt; shelf.fail_at(3).is_ok() && out.fail_at(1).is_ok());
    let answer = ("certify D C", Status::ReadFault, "");
    expect_into(&rt, &(), &mut shelf, &mut out, answer);
    assert!(&rt; out.put(b"x") == PutDone::Failed && out.put(b"x") == PutDone::Took(1));
}

/// A command line, the file that is absent, and what is printed.
const ABSENT: [(&str, &str, &str); 13] = [
    ("assemble S", "S", "ABSENT S\n"),
    ("compare S L", "S", "ABSENT S\n"),
    ("compare S L", "L", "ABSENT L\n"),
    ("tape S", "S", "ABSENT S\n"),
    ("certify D C", "D", "ABSENT D\n"),
    ("certify D C", "C", "ABSENT C\n"),
    ("run D P", "P", "ABSENT P\n"),
    ("guard D P C", "D", "ABSENT D\n"),
    ("guard D P C", "P", "ABSENT P\n"),
    ("guard D P C", "C", "ABSENT C\n"),
    ("budget D K T", "T", "ABSENT T\n"),
    ("scales A B E", "E", "ABSENT E\n"),
    ("edits R Q U", "U", "ABSENT U\n"),
];

#[test]
fn an_absent_file_ends_the_run(rt: HostRuntime) {
    for &(line, absent, text) in &ABSENT {
        let mut shelf = files_without(&rt, rt.alloc(), absent);
        expect_over(
            &rt,
            &absent,
            &mut shelf,
            3,
            (line, Status::AbsentFile, text),
        );
    }
}
