//! Certificates whose texts were worked out outside the crate: octal numbers are typed as octal.

use crate::certificates::common::{OPEN, Said, certificate, row};
use crate::common::{Held, Limit, add, expect_same};
use ags_certread::{CERT_LIMIT, read};
use ags_certsend::{send_cert, sent_certificate_reads_back, sent_lines_are_read};
use ags_certtype::Cert;
use ags_decks::FailingSink;
use ags_outside::{SendError, SteadySink};
use ags_ports::Ports;
use std::alloc::Global;
use std::process::Abort;

/// The text of `RETURN_WORD_PARTS`.
const RETURN_WORD: &[u8] = b"AGSCERT 1\nSTART 4000\n\
    ROW 4000 A ANY Q ANY X 0 V 0\n\
    ROW 4001 A ANY Q ANY X 0 V 0\n\
    ROW 4002 A ANY Q WORDS 404001 X 0 V 0\n\
    ROW 4003 A ANY Q ANY X 0 V 0\n\
    AT 0017 WORDS 404001\n\
    ROW 0017 A ANY Q ANY X 0 V 0\n\
    AT 0017 WORDS 404001\n\
    END\n";

/// The text of `EACH_KIND_PARTS`.
const EACH_KIND: &[u8] = b"AGSCERT 1\nSTART 4001\n\
    CELL 0020 RANGE -5 7\n\
    CELL 3777 WORDS 000000 777777\n\
    INIT 0000 ANY\n\
    INIT 3777 WORDS 777777\n\
    IN 2001 RANGE 0 131071\n\
    IN 2200 RANGE 0 31\n\
    OUT 6001 RANGE -131072 -1\n\
    MAY 0000\n\
    MAY 7777\n\
    ROW 4001 A RANGE 1 2 Q WORDS 000001 X 0127 V 01\n\
    AT 0017 ANY\n\
    AT 0020 RANGE -1 0\n\
    ROW 4000 A ANY Q ANY X 5 V 1\n\
    END\n";

/// The text of `TWO_SETS_PARTS`: its row is as long a line as a certificate has.
const TWO_SETS: &[u8] = b"AGSCERT 1\nSTART 4000\n\
    ROW 4000 A WORDS 000001 000002 000003 000004 000005 000006 000007 000010 \
    000011 000012 000013 000014 000015 000016 000017 000020 Q WORDS \
    777760 777761 777762 777763 777764 777765 777766 777767 \
    777770 777771 777772 777773 777774 777775 777776 777777 X 01234567 V 01\n\
    END\n";

/// A certificate with links as it is sent: the rows of a limiter, and one with a cell and a link.
const LIMITER: &[u8] = b"AGSCERT 2\nSTART 4000\n\
    CELL 0020 RANGE 0 10\n\
    ROW 4000 A ANY Q ANY X 0 V 0\n\
    ROW 4001 A RANGE 0 10 Q ANY X 0 V 0\n\
    LINK 0020 0\n\
    ROW 4002 A RANGE -10 0 Q ANY X 0 V 0\n\
    LINK 0020 10\n\
    ROW 4003 A ANY Q ANY X 0 V 0\n\
    ROW 4004 A ANY Q ANY X 0 V 0\n\
    AT 0020 RANGE 0 9\n\
    ROW 4005 A RANGE 0 9 Q ANY X 0 V 0\n\
    ROW 4006 A RANGE 1 10 Q ANY X 0 V 0\n\
    AT 0017 ANY\n\
    AT 0020 RANGE 0 9\n\
    LINK 0020 -262143\n\
    ROW 4007 A ANY Q ANY X 0 V 0\n\
    END\n";

/// A text whose cells and link stand in another order than they are sent.
const UNSORTED: &[u8] =
    b"AGSCERT 2\nROW 4000 A ANY Q ANY X 0 V 0\nLINK 0020 -3\nAT 0021 ANY\nAT 0017 ANY\nEND\n";

/// `UNSORTED` as it is sent.
const SORTED: &[u8] =
    b"AGSCERT 2\nSTART 4000\nROW 4000 A ANY Q ANY X 0 V 0\nAT 0017 ANY\nAT 0021 ANY\nLINK 0020 -3\nEND\n";

/// A text of version 2 without a link.
const UNLINKED: &[u8] = b"AGSCERT 2\nROW 4000 A ANY Q ANY X 0 V 0\nEND\n";

/// `UNLINKED` as it is sent.
const PLAIN: &[u8] = b"AGSCERT 1\nSTART 4000\nROW 4000 A ANY Q ANY X 0 V 0\nEND\n";

/// A certificate, as a constant says it: its start, limits, what is stated of some cells at the start, and its rows.
struct Parts {
    start: u16,
    limits: &'static [Limit],
    firsts: &'static [(u16, Held)],
    rows: &'static [Said],
}

/// The certificate that is said.
fn made(rt: &impl Abort, alloc: Global, parts: &Parts) -> Cert {
    let mut rows = Vec::new(alloc);
    for said in parts.rows {
        add(rt, &mut rows, row(rt, alloc, said));
    }
    let made = certificate(rt, alloc, parts.start, parts.limits, parts.firsts, rows);
    made.expect(rt, "the parts of a certificate")
}

/// The word that comes back to 4001 octal.
const BACK: Held = Held::Word(0o404001);

/// The certificate of a program that puts 404001 into Q and comes back over a cell.
const RETURN_WORD_PARTS: Parts = Parts {
    start: 0o4000,
    limits: &[],
    firsts: &[],
    rows: &[
        OPEN,
        Said {
            location: 0o4001,
            ..OPEN
        },
        Said {
            location: 0o4002,
            q: BACK,
            ..OPEN
        },
        Said {
            location: 0o4003,
            at: (Some((0o17, BACK)), None),
            ..OPEN
        },
        Said {
            location: 0o17,
            at: (Some((0o17, BACK)), None),
            ..OPEN
        },
    ],
};

/// A certificate with a line of each kind.
const EACH_KIND_PARTS: Parts = Parts {
    start: 0o4001,
    limits: &[
        Limit::Cell(0o3777, Held::Pair(0, 0o777777)),
        Limit::Cell(0o20, Held::Range(-5, 7)),
        Limit::Cell(0o21, Held::Range(-131_072, 131_071)),
        Limit::Input(0o2200, Held::Range(0, 31)),
        Limit::Input(0o2001, Held::Range(0, 131_071)),
        Limit::Output(0o6001, Held::Range(-131_072, -1)),
        Limit::Place(0o7777),
        Limit::Place(0),
    ],
    firsts: &[(0, Held::Any), (0o3777, Held::Word(0o777777))],
    rows: &[
        Said {
            location: 0o4001,
            a: Held::Range(1, 2),
            q: Held::Word(1),
            x: [true, true, true, false, false, false, false, true],
            v: [true, true],
            at: (Some((0o17, Held::Any)), Some((0o20, Held::Range(-1, 0)))),
        },
        Said {
            x: [false, false, false, false, false, true, false, false],
            v: [false, true],
            ..OPEN
        },
    ],
};

/// A certificate of one row, whose A and whose Q hold sixteen words each; each index and each indicator may stand.
const TWO_SETS_PARTS: Parts = Parts {
    start: 0o4000,
    limits: &[],
    firsts: &[],
    rows: &[Said {
        a: Held::Sixteen(0o1),
        q: Held::Sixteen(0o777760),
        x: [true; 8],
        v: [true, true],
        ..OPEN
    }],
};

/// Expects the text of a certificate, which a sink takes in pieces of so many bytes at most.
fn expect_sent(rt: &impl Abort, alloc: Global, cert: &Cert, most: usize, text: &[u8]) {
    let mut out = SteadySink::new(alloc, most.max(1));
    assert!(rt; send_cert(cert, &mut out).is_ok());
    expect_same(rt, &out.bytes(), &text);
}

#[test]
fn certificates_are_sent(rt: HostRuntime) {
    let alloc = rt.alloc();
    let return_word = made(&rt, alloc, &RETURN_WORD_PARTS);
    expect_sent(&rt, alloc, &return_word, 10_000, RETURN_WORD);
    let each_kind = made(&rt, alloc, &EACH_KIND_PARTS);
    expect_sent(&rt, alloc, &each_kind, 1, EACH_KIND);
    let two_sets = made(&rt, alloc, &TWO_SETS_PARTS);
    expect_sent(&rt, alloc, &two_sets, 10_000, TWO_SETS);
}

/// Texts, and as what their certificates are sent.
const READ_AND_SENT: [(&[u8], &[u8]); 5] = [
    (RETURN_WORD, RETURN_WORD),
    (TWO_SETS, TWO_SETS),
    (LIMITER, LIMITER),
    (UNSORTED, SORTED),
    (UNLINKED, PLAIN),
];

#[test]
fn sent_texts_read_back(rt: HostRuntime) {
    let alloc = rt.alloc();
    for &(text, sent) in &READ_AND_SENT {
        assert!(&rt; text.len() <= CERT_LIMIT);
        let cert = read(alloc, text, &Ports::standard())
            .ok()
            .expect(&rt, "a certificate");
        expect_sent(&rt, alloc, &cert, 10_000, sent);
    }
}

/// Sends a certificate to a sink that fails at a put, and looks at the answer and at how many puts there were.
fn expect_puts(rt: &impl Abort, cert: &Cert, at: u64, wanted: Result<(), SendError>, puts: u64) {
    let mut out = FailingSink::at(at);
    let answer = send_cert(cert, &mut out);
    expect_same(rt, &(answer, out.puts()), &(wanted, puts));
}

#[test]
fn each_line_is_one_put_that_may_fail(rt: HostRuntime) {
    let cert = made(&rt, rt.alloc(), &EACH_KIND_PARTS);
    for at in 1..=16u64 {
        expect_puts(&rt, &cert, at, Err(SendError::WriteFault), at);
    }
    expect_puts(&rt, &cert, 17, Ok(()), 16);
    sent_lines_are_read();
    sent_certificate_reads_back();
}
