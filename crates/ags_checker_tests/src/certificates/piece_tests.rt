//! Certificates whose text comes in pieces: wherever it is cut, the answer is that of the whole text. And what takers are
//! handed of a file.

ghost use Rattle.ags_outside.specs.ToldFile.{Untold};

use crate::common::expect_same;
use ags_cert::{CERT_LIMIT, Cert, CertError, CertKind, CertReader, read};
use ags_domain::Value;
use ags_outside::{FetchError, Pull, Shelf, Taker, fetch_into};
use ags_ports::Ports;
use ags_row::Row;
use std::alloc::{AllocError, Global};
use std::process::Abort;

/// A certificate of the program that puts its return word into a cell.
const RETURN_WORD: &[u8] = b"AGSCERT 1\nSTART 4000\n\
    ROW 4000 A ANY Q ANY X 0 V 0\n\
    ROW 4001 A ANY Q ANY X 0 V 0\n\
    ROW 4002 A ANY Q WORDS 404001 X 0 V 0\n\
    ROW 4003 A ANY Q ANY X 0 V 0\n\
    AT 0017 WORDS 404001\n\
    ROW 0017 A ANY Q ANY X 0 V 0\n\
    AT 0017 WORDS 404001\n\
    END\n";

/// One with a line of each kind and a comment, whose lines end in several ways, and a lone return after the last line feed.
const EVERY_KIND: &[u8] = b"AGSCERT 1\r\n# a comment\nSTART 4000\r\nCELL 0017 RANGE -5 9\n\n\
    INIT 0017 RANGE 0 9\nIN 2200 RANGE 0 31\nOUT 6001 WORDS 000001 777777\nMAY 4001\n\
    ROW 4000 A ANY Q WORDS 404001 X 0127 V 01\r\nAT 0020 RANGE 1 2\n AT\t0017 RANGE 3 4 \n\
    ROW 4000 A ANY Q ANY X 0 V 1\nAT 0017 RANGE 3 3\nEND\n\n# behind the end\n\r";

/// One of version 2: that of a limiter, whose rows have links.
const LIMITER: &[u8] = b"AGSCERT 2\nCELL 0020 RANGE 0 10\n\
    ROW 4000 A ANY Q ANY X 0 V 0\n\
    ROW 4001 A RANGE 0 10 Q ANY X 0 V 0\nLINK 0020 0\n\
    ROW 4002 A RANGE -10 0 Q ANY X 0 V 0\nLINK 0020 10\n\
    ROW 4003 A ANY Q ANY X 0 V 0\n\
    ROW 4004 A ANY Q ANY X 0 V 0\nAT 0020 RANGE 0 9\n\
    ROW 4005 A RANGE 0 9 Q ANY X 0 V 0\n\
    ROW 4006 A RANGE 1 10 Q ANY X 0 V 0\n\
    ROW 4007 A ANY Q ANY X 0 V 0\nEND\n";

/// Short texts with an answer of each sort: certificates, and first faults.
const SHORT: [&[u8]; 12] = [
    // no line feed at the end, with a return and without
    b"AGSCERT 1\nROW 4000 A ANY Q ANY X 0 V 0\nEND",
    b"AGSCERT 1\nROW 4000 A ANY Q ANY X 0 V 0\nEND\r",
    // a return that ends no line, and two at a line's end
    b"AGSCERT 1\nROW 4000 A ANY\r Q ANY X 0 V 0\nEND\n",
    b"AGSCERT 1\nROW 4000 A ANY Q ANY X 0 V 0\r\r\nEND\n",
    // no end, and nothing at all
    b"AGSCERT 1\nROW 4000 A ANY Q ANY X 0 V 0\n",
    b"AGSCERT 1\r",
    b"",
    b"\r",
    // a fault, and a later one of a lesser number
    b"AGSCERT 1\nCELL 0017 RANGE 5 9\nINIT 0017 RANGE 4 6\nIN\nEND\n",
    b"AGSCERT 3\nROW 4000\n",
    // a link in version 1, and a second one of a row in version 2
    b"AGSCERT 1\nROW 4000 A ANY Q ANY X 0 V 0\nLINK 0020 0\nEND\n",
    b"AGSCERT 2\nROW 4000 A ANY Q ANY X 0 V 0\nLINK 0020 0\nLINK 0020 0\nEND\n",
];

/// Whether two rows are the same.
fn is_same_row(one: &Row<Value>, other: &Row<Value>) -> bool {
    one.location() == other.location()
        && (one.a(), one.q()) == (other.a(), other.q())
        && (one.x(), one.v()) == (other.x(), other.v())
        && one.at() == other.at()
        && one.link() == other.link()
}

/// Whether what two certificates state of the addresses that the texts here name is the same.
fn has_same_limits(one: &Cert, other: &Cert) -> bool {
    let (limits, others) = (one.limits(), other.limits());
    limits.cell(0o17) == others.cell(0o17)
        && limits.cell(0o20) == others.cell(0o20)
        && limits.input(0o2200) == others.input(0o2200)
        && limits.output(0o6001) == others.output(0o6001)
        && limits.may(0o4001) == others.may(0o4001)
        && one.init(0o17) == other.init(0o17)
}

/// Whether two certificates are the same.
fn is_same_cert(one: &Cert, other: &Cert) -> bool {
    let (rows, others) = (one.rows(), other.rows());
    if one.start() != other.start() || rows.len() != others.len() {
        return false;
    }
    let mut same = has_same_limits(one, other);
    for number in 0..rows.len() {
        same = same && is_same_row(&rows[number], &others[number]);
    }
    same
}

/// Whether two answers are the same.
fn is_same(one: &Result<Cert, CertError>, other: &Result<Cert, CertError>) -> bool {
    match (one, other) {
        (Ok(cert), Ok(another)) => is_same_cert(cert, another),
        (Err(error), Err(another)) => *error == *another,
        (Ok(_), Err(_)) => false,
        (Err(_), Ok(_)) => false,
    }
}

/// The answer for a text that is read whole.
fn whole(rt: &impl Abort, alloc: Global, text: &[u8]) -> Result<Cert, CertError> {
    assert!(rt; text.len() <= CERT_LIMIT);
    read(alloc, text, &Ports::standard())
}

/// A reader for the standard machine.
fn reader(rt: &impl Abort, alloc: Global) -> CertReader {
    CertReader::new(alloc, &Ports::standard()).expect(rt, "memory")
}

/// The answer for pieces, one after the other.
fn of_pieces(rt: &impl Abort, alloc: Global, pieces: &[&[u8]]) -> Result<Cert, CertError> {
    let mut reader = reader(rt, alloc);
    for piece in pieces {
        reader.take(piece).expect(rt, "memory");
    }
    reader.finish()
}

/// The answer for a text that comes in pieces of that size.
fn by_pieces(rt: &impl Abort, alloc: Global, text: &[u8], size: usize) -> Result<Cert, CertError> {
    assert!(rt; size > 0);
    let mut reader = reader(rt, alloc);
    for start in 0..text.len() {
        if start % size == 0 {
            let left = &text[start..];
            reader
                .take(&left[..size.min(left.len())])
                .expect(rt, "memory");
        }
    }
    reader.finish()
}

/// Expects an answer for a text that was cut there, or into pieces of such a size.
fn expect_alike(
    rt: &impl Abort,
    text: &[u8],
    cut: (usize, usize),
    told: Result<Cert, CertError>,
    wanted: &Result<Cert, CertError>,
) {
    assert!(rt; is_same(&told, wanted), "cut at {cut:?}: {text:?}");
}

/// Expects the same answer for a text that is cut at each byte, and into pieces of several sizes.
fn expect_same_by_pieces(rt: &impl Abort, alloc: Global, text: &[u8]) {
    let wanted = whole(rt, alloc, text);
    for cut in 0..text.len() + 1 {
        let told = of_pieces(rt, alloc, &[&text[..cut], &text[cut..]]);
        expect_alike(rt, text, (cut, cut), told, &wanted);
    }
    for size in [1, 2, 3, 512] {
        let told = by_pieces(rt, alloc, text, size);
        expect_alike(rt, text, (size, size), told, &wanted);
    }
}

/// Expects the same of a text that is a certificate.
fn expect_cert_by_pieces(rt: &impl Abort, alloc: Global, text: &[u8]) {
    assert!(rt; whole(rt, alloc, text).is_ok(), "no certificate: {text:?}");
    expect_same_by_pieces(rt, alloc, text);
}

#[test]
fn texts_are_read_alike_in_pieces(rt: HostRuntime) {
    let alloc = rt.alloc();
    expect_cert_by_pieces(&rt, alloc, RETURN_WORD);
    expect_cert_by_pieces(&rt, alloc, EVERY_KIND);
    expect_cert_by_pieces(&rt, alloc, LIMITER);
    for text in &SHORT {
        expect_same_by_pieces(&rt, alloc, text);
    }
}

/// Expects the line and the kind of a text's first fault, also where the text comes byte by byte.
fn expect_fault(rt: &impl Abort, alloc: Global, text: &[u8], line: u32, kind: CertKind) {
    let wanted = Err(CertError::At { line, kind });
    assert!(rt; is_same(&whole(rt, alloc, text), &wanted));
    assert!(rt; is_same(&by_pieces(rt, alloc, text, 1), &wanted));
}

#[test]
fn the_first_of_two_faults_is_told(rt: HostRuntime) {
    let alloc = rt.alloc();
    expect_fault(&rt, alloc, SHORT[8], 3, CertKind::OutsideGlobal);
    expect_fault(&rt, alloc, SHORT[9], 1, CertKind::Version);
    expect_fault(&rt, alloc, SHORT[4], 3, CertKind::BadLine);
}

/// Expects the same answer for a text that is cut in three, with an empty piece at each cut.
fn expect_same_in_three(rt: &impl Abort, alloc: Global, text: &[u8]) {
    let wanted = whole(rt, alloc, text);
    for second in 0..text.len() + 1 {
        for first in 0..second + 1 {
            let pieces: [&[u8]; 5] = [
                &text[..first],
                b"",
                &text[first..second],
                b"",
                &text[second..],
            ];
            let told = of_pieces(rt, alloc, &pieces);
            expect_alike(rt, text, (first, second), told, &wanted);
        }
    }
}

/// Short texts, the one a fault in its third line, the other a line that has not ended.
const FEW_LINES: [&[u8]; 2] = [b"AGSCERT 1\n#a\r\nIN\n", b"AGSCERT 1\nEND\r"];

#[test]
fn a_line_over_three_pieces_is_read_alike(rt: HostRuntime) {
    for text in &FEW_LINES {
        expect_same_in_three(&rt, rt.alloc(), text);
    }
}

/// Expects the line of a bad line in pieces.
fn expect_bad_line(rt: &impl Abort, alloc: Global, pieces: &[&[u8]], line: u32) {
    let kind = CertKind::BadLine;
    let told = of_pieces(rt, alloc, pieces).err();
    assert!(rt; told == Some(CertError::At { line, kind }), "line {line}");
}

/// A row and the end, as they stand after lines that do nothing.
const ROW_AND_END: &[u8] = b"ROW 4000 A ANY Q ANY X 0 V 0\nEND\n";

#[test]
fn line_feeds_alone_are_lines(rt: HostRuntime) {
    let alloc = rt.alloc();
    let pieces: [&[u8]; 4] = [b"AGSCERT 1", b"\n\n\n", b"\n", ROW_AND_END];
    assert!(&rt; of_pieces(&rt, alloc, &pieces).is_ok());
    let faulty: [&[u8]; 4] = [b"AGSCERT 1", b"\n\n\n", b"\n", b"ROW\n"];
    expect_bad_line(&rt, alloc, &faulty, 5);
}

/// What may stand after a fault.
const BEHIND_A_FAULT: [&[u8]; 6] = [
    b"",
    b"\n",
    b"\n\n\n",
    b"IN\n",
    ROW_AND_END,
    b"a line that hasn't ended",
];

/// The front of a line that is too long already.
const TOO_LONG: &[u8] = &[b'#'; 514];

#[test]
fn bytes_behind_a_fault_change_nothing(rt: HostRuntime) {
    let alloc = rt.alloc();
    for &one in &BEHIND_A_FAULT {
        for &other in &BEHIND_A_FAULT {
            let behind_a_line: [&[u8]; 4] = [b"AGSCERT 1\nIN", b"\n", one, other];
            expect_bad_line(&rt, alloc, &behind_a_line, 2);
            let behind_a_rest: [&[u8]; 4] = [b"AGSCERT 1\n", TOO_LONG, one, other];
            expect_bad_line(&rt, alloc, &behind_a_rest, 2);
        }
    }
}

/// A certificate whose second line is a comment of so many bytes, its end not counted.
fn with_comment(rt: &impl Abort, alloc: Global, length: usize) -> Vec<u8> {
    let mut text = Vec::from_slice(alloc, b"AGSCERT 1\n#").expect(rt, "memory");
    for _ in 1..length {
        assert!(rt; text.push(b'x').is_ok());
    }
    let behind = b"\r\nROW 4000 A ANY Q ANY X 0 V 0\nEND\n";
    assert!(rt; text.extend_from_slice(behind).is_ok());
    text
}

#[test]
fn longest_lines_are_read_alike_in_pieces(rt: HostRuntime) {
    let alloc = rt.alloc();
    expect_cert_by_pieces(&rt, alloc, &with_comment(&rt, alloc, 512));
    let overlong = with_comment(&rt, alloc, 513);
    expect_fault(&rt, alloc, &overlong, 2, CertKind::BadLine);
    expect_same_by_pieces(&rt, alloc, &overlong);
}

/// A shelf that tells nothing, of one file, which it gives byte by byte.
#[derive(Drop)]
struct ByteShelf {
    bytes: &'static [u8],
}

impl Shelf for ByteShelf {
    ghost told = { λ _ _. Untold };

    ghost faults = { λ _. 0 };

    ghost absences = { λ _. 0 };

    fn pull(&mut self, _name: &str, from: u64, into: &mut [u8]) -> Pull {
        let from = from as usize;
        if from >= self.bytes.len() {
            return Pull::End;
        }
        into[0] = self.bytes[from];
        Pull::Got(1)
    }
}

#[test]
fn a_file_is_read_byte_by_byte(rt: HostRuntime) {
    let alloc = rt.alloc();
    for &text in &[RETURN_WORD, EVERY_KIND, SHORT[1], SHORT[8]] {
        let mut shelf = ByteShelf { bytes: text };
        let mut reader = reader(&rt, alloc);
        let limit = CERT_LIMIT as u64;
        assert!(&rt; fetch_into(&mut shelf, "C", limit, &mut reader).is_ok());
        assert!(&rt; is_same(&reader.finish(), &whole(&rt, alloc, text)));
    }
}

/// A taker that keeps what it takes, and has memory for so many pieces.
#[derive(Drop)]
struct FewPieces {
    left: u32,
    taken: Vec<u8>,
}

impl Taker for FewPieces {
    ghost took = { λ _ _. Unit {0} };

    ghost stays = { λ _ _. Unit {0} };

    ghost stays_at_once = { λ _. tt };

    ghost stays_on = { λ _ _ _ _ _. tt };

    fn take(&mut self, piece: &[u8]) -> Result<(), AllocError> {
        if self.left == 0 {
            return Err(AllocError);
        }
        self.left -= 1;
        self.taken.extend_from_slice(piece)
    }
}

/// Room for so many pieces, a limit, the answer, and the bytes that were taken.
const HANDED: [(u32, u64, Result<(), FetchError>, &[u8]); 7] = [
    (9, 5, Ok(()), b"12345"),
    (5, 5, Ok(()), b"12345"),
    (4, 5, Err(FetchError::NoMemory), b"1234"),
    (1, 5, Err(FetchError::NoMemory), b"1"),
    (0, 5, Err(FetchError::NoMemory), b""),
    // no piece past the limit is handed on
    (9, 4, Err(FetchError::TooLong), b"1234"),
    (9, 0, Err(FetchError::TooLong), b""),
];

#[test]
fn pieces_are_handed_on_up_to_the_limit(rt: HostRuntime) {
    let alloc = rt.alloc();
    for &(left, limit, wanted, bytes) in &HANDED {
        let mut shelf = ByteShelf { bytes: b"12345" };
        let taken = Vec::new(alloc);
        let mut taker = FewPieces { left, taken };
        expect_same(
            &rt,
            &fetch_into(&mut shelf, "C", limit, &mut taker),
            &wanted,
        );
        assert!(&rt; taker.taken.as_slice() == bytes);
    }
}
