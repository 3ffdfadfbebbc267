//! What several tests make, and what they assert.

use crate::common::word;
use ags_certread::{CERT_LIMIT, read};
use ags_certtype::Cert;
use ags_check::{Verdict, check};
use ags_domain::{Domain, Range, Value, WordSet};
use ags_image::Image;
use ags_ports::{Machine, Ports};
use ags_recheck::Book;
use ags_row::{At, Row, RowParts};
use ags_steps::Steps;
use std::alloc::Global;
use std::process::Abort;
use std::sync::ledger::Ledger;

/// A row with this value of A, with index 0 and the indicator clear, and one cell if it is given.
pub(crate) fn row_with(
    rt: &impl Abort,
    alloc: Global,
    location: u16,
    a: Value,
    cell: Option<At<Value>>,
) -> Row<Value> {
    let mut at = Vec::new(alloc);
    if let Some(cell) = cell {
        assert!(rt; at.push(cell).is_ok());
    }
    Row::of(RowParts {
        location,
        a,
        q: Value::full(),
        x: [true, false, false, false, false, false, false, false],
        v: [true, false],
        at,
        link: None,
    })
    .expect(rt, "the parts of a row")
}

/// The set of one word.
pub(crate) fn one_word(rt: &impl Abort, number: u32) -> Value {
    Value::Words(WordSet::of(&[word(rt, number)]).expect(rt, "a set of one word"))
}

/// The value that is a range of two values.
pub(crate) fn range(rt: &impl Abort, least: i32, greatest: i32) -> Value {
    Value::Range(Range::of(least, greatest).expect(rt, "the ends of a range"))
}

/// The book of an image and a certificate on the standard machine.
pub(crate) fn book_of<L: Ledger>(
    rt: &impl Abort,
    alloc: Global,
    image: Image,
    cert: Cert,
    steps: &mut Steps<L>,
) -> Book {
    Book::new(alloc, Machine::standard(), image, cert, steps).expect(rt, "memory for a book")
}

/// A verdict as it is printed.
pub(crate) fn printed(rt: &impl Abort, alloc: Global, verdict: &Verdict) -> String {
    format!(in alloc; "{verdict}").expect(rt, "memory for a verdict")
}

/// The verdict of a book as it is printed, where a check from nothing tells the same.
pub(crate) fn told_afresh<L: Ledger>(
    rt: &impl Abort,
    alloc: Global,
    book: &Book,
    steps: &mut Steps<L>,
) -> String {
    let told = printed(rt, alloc, &book.verdict());
    let fresh = check(&Machine::standard(), book.image(), book.cert(), steps);
    assert!(rt; printed(rt, alloc, &fresh) == told, "{told}");
    told
}

/// The certificate of a text on the standard machine.
pub(crate) fn cert_read(rt: &impl Abort, alloc: Global, text: &[u8]) -> Cert {
    assert!(rt; text.len() <= CERT_LIMIT);
    read(alloc, text, &Ports::standard())
        .ok()
        .expect(rt, "a certificate")
}
