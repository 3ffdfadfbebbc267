//! Command lines, the files that they read, and what comes of them.

use crate::command_lines::{Answer, arguments_of, expect_same};
use ags_decks::{DECK, DECK_CERTIFICATE, DECK_SCRIPT, DECK_SPLIT_CERTIFICATE, DECK_TIMES};
use ags_outside::{MemoryShelf, MemorySink, Shelf};
use ags_top::{Status, ags_main};
use std::alloc::Global;
use std::fmt::Debug;
use std::process::Abort;

/// A sum of two words at scale 6.
const SUM: &str =
    " ORG /20\nX BSS 1\n ORG /4000\nL INP /2001\n LRS 3\n ADD C\n STO X\n DLY L\nC DEC 1B6\n";

/// Its certificate.
const SUM_CERTIFICATE: &str =
    "AGSCERT 1\nIN 2001 RANGE -1000 1000\nROW 4000 A ANY Q ANY X 0 V 0\nROW 4001 A RANGE -1000 1000 Q ANY X 0 V 0\nROW 4002 A RANGE -125 125 Q ANY X 0 V 0\nROW 4003 A RANGE 1923 2173 Q ANY X 0 V 0\nROW 4004 A ANY Q ANY X 0 V 0\nEND\n";

/// Its scales.
const SUM_SCALES: &str =
    "AGSSCALE 1\nCELL 0020 6\nCELL 4005 6\nIN 2001 3\nROW 2 3 ANY\nROW 3 6 ANY\nROW 4 6 ANY\nEND\n";

/// A subroutine that keeps its return word in a cell and goes back through it.
const RETURN: &str = " ORG /4000\n TSQ /4002\n TRA /4000\n STQ /17\n TRA /17\n";

/// Its certificate.
const RETURN_CERTIFICATE: &str =
    "AGSCERT 1\nROW 4000 A ANY Q ANY X 0 V 0\nROW 4001 A ANY Q ANY X 0 V 0\nROW 4002 A ANY Q WORDS 404001 X 0 V 0\nROW 4003 A ANY Q ANY X 0 V 0\nAT 0017 WORDS 404001\nROW 0017 A ANY Q ANY X 0 V 0\nAT 0017 WORDS 404001\nEND\n";

/// Edits of its last row.
const RETURN_EDITS: &str =
    "AGSEDIT 1\nROW 5 0017 A ANY Q ANY X 0 V 0\nROW 5 0017 A ANY Q ANY X 0 V 0\nAT 0017 WORDS 404001\nEND\n";

/// The listing of the source S.
pub(crate) const FIRST_LISTING: &str =
    "0000001             * FIRST\n0000002              ORG /4000\n0000003 4000 000007 A OCT 7\n";

/// A source with symbols in the operands of orders, ORG, EQU and BSS, twice on one card, and in remarks and a comment.
const NAMED: &str =
    " ORG /4000\nT CLA T-T\n TRA T,1 N\n* N T\nN EQU T-4095\nB BSS N+2048\n DEC 1 N\n ORG B+/100\nZ9 END\n";

/// The files that command lines read, by their names: a source S with its listing L; one that names symbols, N; the deck D with its certificate C, its script P,
/// and the certificate K with the bounds T of its rows; the sum A with its certificate B and its scales E; and the subroutine R with its
/// certificate Q and the edits U.
const FILES: [(&str, &str); 14] = [
    ("S", "* FIRST\n ORG /4000\nA OCT 7\n"),
    ("N", NAMED),
    ("L", FIRST_LISTING),
    ("D", DECK),
    ("C", DECK_CERTIFICATE),
    ("P", DECK_SCRIPT),
    ("K", DECK_SPLIT_CERTIFICATE),
    ("T", DECK_TIMES),
    ("A", SUM),
    ("B", SUM_CERTIFICATE),
    ("E", SUM_SCALES),
    ("R", RETURN),
    ("Q", RETURN_CERTIFICATE),
    ("U", RETURN_EDITS),
];

/// These files, of which one may be absent.
pub(crate) fn files_without(rt: &impl Abort, alloc: Global, absent: &str) -> MemoryShelf {
    let mut shelf = MemoryShelf::new(alloc);
    for &(name, text) in &FILES {
        if name != absent {
            assert!(rt; shelf.add(name, text.as_bytes()).is_ok());
        }
    }
    shelf
}

/// Runs a command line over a shelf and into a sink, and expects its status and all that the sink took. A failed assertion shows the
/// case.
pub(crate) fn expect_into<S: Shelf, C: PartialEq + Debug>(
    rt: &(impl AllocGlobal + Abort),
    case: &C,
    shelf: &mut S,
    out: &mut MemorySink,
    answer: Answer<'_>,
) {
    let alloc = rt.alloc();
    let (line, status, text) = answer;
    let arguments = arguments_of(rt, alloc, line);
    let ended = ags_main(alloc, &arguments, shelf, out);
    expect_same(
        rt,
        &(case, line, ended, str::from_utf8(out.bytes())),
        &(case, line, status, Ok(text)),
    );
}

/// The same into a sink that takes so many bytes at once.
pub(crate) fn expect_over<S: Shelf, C: PartialEq + Debug>(
    rt: &(impl AllocGlobal + Abort),
    case: &C,
    shelf: &mut S,
    most: usize,
    answer: Answer<'_>,
) {
    let mut out = MemorySink::new(rt.alloc(), most.max(1));
    expect_into(rt, case, shelf, &mut out, answer);
}
