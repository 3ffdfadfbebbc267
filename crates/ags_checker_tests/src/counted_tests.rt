//! The calls that count steps, each with a counter of its own; and how many cases are judged until one is refused. The counter takes
//! no bytes, so that none of its numbers can be read: a judge counts the cases that it is asked, each of which is one step.

ghost use Rattle.std.specs.Prelude.{◌≡◌, ◌<◌};

use crate::common::{Held, Limit, add, expect_same, image_of, limits_of, open_parts, row_of, word};
use ags_certread::{CERT_LIMIT, read};
use ags_certtype::{Cert, CertParts};
use ags_check::{Accepting, Refusal, RowFault, Verdict, check, refusal_of};
use ags_domain::{Domain, Operands, Value};
use ags_image::Image;
use ags_ports::{Machine, Ports};
use ags_row::{Limits, Row};
use ags_steps::Steps;
use ags_transfer::{PostPair, Stop, posts};
use ags_verdict::{Judge, OneCase, walk_rows};
use ags_word::Word;
use std::alloc::Global;
use std::cell::Cell;
use std::marker::{Brand, Model};
use std::process::Abort;
use std::sync::ledger::{Blank, Ledger};

/// The verdict of a certificate, with a counter on the ledger of a blank.
fn verdict_from<L: Ledger>(machine: &Machine, image: &Image, cert: &Cert, blank: Blank) -> Verdict
    requires name { blank.name ≡ L.name }
    requires parts { blank.parts ≡ L.parts }
    requires some { 0 < L.parts }
{
    let mut steps = Steps::<L>::new(blank);
    check(machine, image, cert, &mut steps)
}

/// The verdict of a certificate.
pub(crate) fn verdict_of(machine: &Machine, image: &Image, cert: &Cert) -> Verdict {
    verdict_from::<Brand>(machine, image, cert, Blank::new(1))
}

/// The posts of a case, with a counter on the ledger of a blank.
fn posts_from<D: Domain, L: Ledger>(
    machine: &Machine,
    image: &Image,
    limits: &Limits<D>,
    base: &Row<D>,
    word: Word,
    x: u8,
    v: bool,
    blank: Blank,
) -> Result<PostPair<D>, Stop<D>>
    requires index { x < 8 }
    requires name { blank.name ≡ L.name }
    requires parts { blank.parts ≡ L.parts }
    requires some { 0 < L.parts }
{
    let mut steps = Steps::<L>::new(blank);
    posts(machine, image, limits, base, word, x, v, &mut steps)
}

/// The posts of a case.
pub(crate) fn posts_of<D: Domain>(
    machine: &Machine,
    image: &Image,
    limits: &Limits<D>,
    base: &Row<D>,
    word: Word,
    x: u8,
    v: bool,
) -> Result<PostPair<D>, Stop<D>>
    requires { x < 8 }
{
    posts_from::<D, Brand>(machine, image, limits, base, word, x, v, Blank::new(1))
}

/// The judge of the check, which counts the cases that it is asked.
#[derive(Drop)]
struct Counting<'a> {
    accepting: Accepting<'a>,
    asked: Cell<u32>,
}

impl<'a> Model for Counting<'a> {
    ghost use Rattle.std.specs.Prelude.{⊤};

    ghost Value = { ⊤ };

    ghost view = { λ counting. tt };
}

impl<'a, L: Ledger> Judge<Value, L> for Counting<'a> {
    ghost use Rattle.std.specs.Prelude.{⊤, Err};
    ghost use Rattle.ags_verdict.specs.declared.verdicts.RowFault.TheVariants.{CodeUnknown};

    type Fault = RowFault;

    ghost judges = { λ counting number row c outcome. ⊤ };

    ghost unknown = { Err CodeUnknown };

    fn code_unknown(&self) -> Result<u64, RowFault> {
        Err(RowFault::CodeUnknown)
    }

    fn case(
        &self,
        number: u32,
        row: &Row<Value>,
        case: OneCase,
        steps: &mut Steps<L>,
    ) -> Result<u64, RowFault> {
        self.asked.set(self.asked.get().wrapping_add(1));
        self.accepting.case(number, row, case, steps)
    }
}

/// What comes of the rows of a certificate: their cases, or the refusal; and how many cases were judged.
#[derive(Drop)]
struct Judged {
    outcome: Result<u64, Refusal>,
    cases: u32,
}

/// The same, with a counter on the ledger of a blank.
fn judged_from<L: Ledger>(
    rt: &impl Abort,
    machine: &Machine,
    image: &Image,
    cert: &Cert,
    blank: Blank,
) -> Judged
    requires name { blank.name ≡ L.name }
    requires parts { blank.parts ≡ L.parts }
    requires some { 0 < L.parts }
{
    let mut steps = Steps::<L>::new(blank);
    let counting = Counting {
        accepting: Accepting::new(machine, image, cert),
        asked: Cell::new(0),
    };
    let rows = cert.rows();
    assert!(rt; rows.len() <= 20_000);
    let outcome = match walk_rows(&counting, image, cert.limits(), rows, &mut steps) {
        Ok(cases) => Ok(cases),
        Err(told) => Err(refusal_of(told.row, &told.fault)),
    };
    Judged {
        outcome,
        cases: counting.asked.get(),
    }
}

/// What comes of the rows as a text: how many cases they have, or the refusal as it is printed.
fn text_of(rt: &impl Abort, alloc: Global, outcome: &Result<u64, Refusal>) -> String {
    let text = match outcome {
        Ok(cases) => format!(in alloc; "{cases}"),
        Err(refusal) => format!(in alloc; "{refusal}"),
    };
    text.expect(rt, "memory for an outcome")
}

/// Asserts what comes of the rows of a certificate for an image on the standard machine.
fn expect_judged(
    rt: &impl Abort,
    alloc: Global,
    image: &Image,
    cert: &Cert,
    outcome: &Result<u64, Refusal>,
    cases: u32,
) {
    let machine = Machine::standard();
    let judged = judged_from::<Brand>(rt, &machine, image, cert, Blank::new(1));
    assert!(rt; text_of(rt, alloc, &judged.outcome) == text_of(rt, alloc, outcome));
    expect_same(rt, &judged.cases, &cases);
}

/// The limits of the rows.
const LIMITS: [Limit; 3] = [
    Limit::Cell(0o20, Held::Range(0, 5)),
    Limit::Cell(0o22, Held::Range(0, 15)),
    Limit::Output(0o6001, Held::Range(0, 5)),
];

/// Asserts what is refused in the second of two rows with index 0 and both indicators, of two cases a word, where the first at 4000 octal
/// goes to it, and how many cases were judged: both of the first row, and of the second those up to the one that fails.
fn expect_refused(
    rt: &impl Abort,
    alloc: Global,
    second: u16,
    number: u32,
    refusal: Refusal,
    cases: u32,
) {
    assert!(rt; second < 4096);
    let words = [0o400000 + u32::from(second), number];
    let image = image_of(rt, alloc, 0o4000, &words);
    let mut rows = Vec::new(alloc);
    for location in [0o4000, second] {
        add(
            rt,
            &mut rows,
            row_of(rt, open_parts(alloc, location, [true, true], None)),
        );
    }
    let parts = CertParts {
        start: 0o4000,
        limits: limits_of(rt, alloc, &LIMITS),
        init: vec![in alloc; None; 2048].expect(rt, "memory for the start"),
        rows,
    };
    let cert = Cert::of(alloc, parts)
        .expect(rt, "memory for a certificate")
        .expect(rt, "the parts of a certificate");
    expect_judged(rt, alloc, &image, &cert, &Err(refusal), cases);
}

#[test]
fn cases_are_judged_up_to_the_one_that_stops(rt: HostRuntime) {
    let alloc = rt.alloc();
    let at = 0o4001;
    let (row, number) = (2, 0o000001);
    let no_order = Refusal::NoOrder {
        row,
        word: word(&rt, number),
    };
    expect_refused(&rt, alloc, at, number, no_order, 3);
    let number = 0o642005;
    let bad_port = Refusal::BadPort {
        row,
        word: word(&rt, number),
    };
    expect_refused(&rt, alloc, at, number, bad_port, 3);
    let number = 0o104000;
    let fixed_write = Refusal::FixedWrite {
        row,
        word: word(&rt, number),
        address: 0o4000,
    };
    expect_refused(&rt, alloc, at, number, fixed_write, 3);
    let number = 0o100020;
    let cell_range = Refusal::CellRange {
        row,
        word: word(&rt, number),
        address: 0o20,
        value: Value::full(),
    };
    expect_refused(&rt, alloc, at, number, cell_range, 3);
    let number = 0o666001;
    let output_range = Refusal::OutputRange {
        row,
        word: word(&rt, number),
        address: 0o6001,
        value: Value::full(),
    };
    expect_refused(&rt, alloc, at, number, output_range, 3);
}

#[test]
fn cases_are_judged_up_to_the_one_that_is_refused(rt: HostRuntime) {
    let alloc = rt.alloc();
    let number = 0o600000;
    let overflow = Refusal::MayOverflow {
        row: 2,
        word: word(&rt, number),
        operands: Operands {
            a: word(&rt, 0o400000),
            q: word(&rt, 0),
            m: word(&rt, 0),
        },
    };
    expect_refused(&rt, alloc, 0o4001, number, overflow, 3);
    let number = 0o404002;
    let not_covered = Refusal::NotCovered {
        row: 2,
        word: word(&rt, number),
        x: 0,
        v: false,
        next: 0o4002,
    };
    expect_refused(&rt, alloc, 0o4001, number, not_covered, 3);
    // A row without a code has no case, and words of a cell are judged in ascending order.
    expect_refused(&rt, alloc, 0o21, 0, Refusal::CodeUnknown { row: 2 }, 2);
    let no_order = Refusal::NoOrder {
        row: 2,
        word: word(&rt, 0),
    };
    expect_refused(&rt, alloc, 0o22, 0, no_order, 3);
}

/// The deck's words, from 4000 octal on.
const DECK: [u32; 33] = [
    0o642001, 0o540003, 0o220020, 0o724022, 0o100020, 0o666001, 0o642002, 0o540003, 0o220021,
    0o724022, 0o100021, 0o666002, 0o642200, 0o244040, 0o464021, 0o224040, 0o666200, 0o704000,
    0o120022, 0o244036, 0o464027, 0o204036, 0o400022, 0o224036, 0o224036, 0o464034, 0o244036,
    0o400022, 0o204037, 0o400022, 0o001750, 0o776030, 0o000001,
];

/// The deck's certificate.
const DECK_CERT: &[u8] = b"AGSCERT 1\n\
START 4000\n\
CELL 0020 RANGE -1000 1000\n\
CELL 0021 RANGE -1000 1000\n\
IN 2001 RANGE -1000 1000\n\
IN 2002 RANGE -1000 1000\n\
IN 2200 RANGE 0 31\n\
OUT 6001 RANGE -1000 1000\n\
OUT 6002 RANGE -1000 1000\n\
OUT 6200 RANGE 0 31\n\
ROW 4000 A ANY Q ANY X 0 V 0\n\
ROW 4001 A RANGE -1000 1000 Q ANY X 0 V 0\n\
ROW 4002 A RANGE -125 125 Q ANY X 0 V 0\n\
ROW 4003 A RANGE -1125 1125 Q ANY X 0 V 0\n\
ROW 4004 A RANGE -1000 1000 Q ANY X 0 V 0\n\
ROW 4005 A RANGE -1000 1000 Q ANY X 0 V 0\n\
ROW 4006 A ANY Q ANY X 0 V 0\n\
ROW 4007 A RANGE -1000 1000 Q ANY X 0 V 0\n\
ROW 4010 A RANGE -125 125 Q ANY X 0 V 0\n\
ROW 4011 A RANGE -1125 1125 Q ANY X 0 V 0\n\
ROW 4012 A RANGE -1000 1000 Q ANY X 0 V 0\n\
ROW 4013 A RANGE -1000 1000 Q ANY X 0 V 0\n\
ROW 4014 A ANY Q ANY X 0 V 0\n\
ROW 4015 A RANGE 0 31 Q ANY X 0 V 0\n\
ROW 4016 A RANGE -1 30 Q ANY X 0 V 0\n\
ROW 4017 A RANGE 0 30 Q ANY X 0 V 0\n\
ROW 4020 A RANGE 1 31 Q ANY X 0 V 0\n\
ROW 4021 A ANY Q ANY X 0 V 0\n\
ROW 4022 A RANGE -1125 1125 Q WORDS 404004 404012 X 0 V 0\n\
ROW 4023 A RANGE -1125 1125 Q ANY X 0 V 0\n\
AT 0022 WORDS 404004 404012\n\
ROW 4024 A RANGE -2125 125 Q ANY X 0 V 0\n\
AT 0022 WORDS 404004 404012\n\
ROW 4025 A RANGE 0 125 Q ANY X 0 V 0\n\
AT 0022 WORDS 404004 404012\n\
ROW 4026 A WORDS 001750 Q ANY X 0 V 0\n\
AT 0022 WORDS 404004 404012\n\
ROW 4027 A RANGE -2125 -1 Q ANY X 0 V 0\n\
AT 0022 WORDS 404004 404012\n\
ROW 4030 A RANGE -1125 999 Q ANY X 0 V 0\n\
AT 0022 WORDS 404004 404012\n\
ROW 4031 A RANGE -125 1999 Q ANY X 0 V 0\n\
AT 0022 WORDS 404004 404012\n\
ROW 4032 A RANGE 0 1999 Q ANY X 0 V 0\n\
AT 0022 WORDS 404004 404012\n\
ROW 4033 A RANGE -1000 999 Q ANY X 0 V 0\n\
AT 0022 WORDS 404004 404012\n\
ROW 4034 A RANGE -125 -1 Q ANY X 0 V 0\n\
AT 0022 WORDS 404004 404012\n\
ROW 4035 A WORDS 776030 Q ANY X 0 V 0\n\
AT 0022 WORDS 404004 404012\n\
ROW 0022 A RANGE -1000 1000 Q ANY X 0 V 0\n\
AT 0022 WORDS 404004 404012\n\
END\n";

/// The deck's certificate as it is read.
fn deck_cert(rt: &impl Abort, alloc: Global) -> Cert {
    assert!(rt; DECK_CERT.len() <= CERT_LIMIT);
    match read(alloc, DECK_CERT, &Ports::standard()) {
        Ok(cert) => cert,
        Err(_) => panic!(rt; "no certificate"),
    }
}

#[test]
fn each_case_of_the_deck_is_judged_once(rt: HostRuntime) {
    let alloc = rt.alloc();
    let image = image_of(&rt, alloc, 0o4000, &DECK);
    expect_judged(&rt, alloc, &image, &deck_cert(&rt, alloc), &Ok(32), 32);
}
