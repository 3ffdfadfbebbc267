//! Rows and certificates, as constants say them.

use crate::common::{Held, Limit, add, limits_of, value_of};
use ags_certtype::{Cert, CertParts};
use ags_domain::Value;
use ags_row::{At, Row, RowParts};
use std::alloc::Global;
use std::process::Abort;

/// A row without a link, as a constant says it.
#[derive(Clone, Copy)]
pub(crate) struct Said {
    pub(crate) location: u16,
    pub(crate) a: Held,
    pub(crate) q: Held,
    pub(crate) x: [bool; 8],
    pub(crate) v: [bool; 2],
    /// Up to two cells that it names.
    pub(crate) at: (Option<(u16, Held)>, Option<(u16, Held)>),
}

/// A row at 4000 octal where all may stand with index 0 and a clear indicator.
pub(crate) const OPEN: Said = Said {
    location: 0o4000,
    a: Held::Any,
    q: Held::Any,
    x: [true, false, false, false, false, false, false, false],
    v: [true, false],
    at: (None, None),
};

/// The row that is said.
pub(crate) fn row(rt: &impl Abort, alloc: Global, said: &Said) -> Row<Value> {
    let mut at = Vec::new(alloc);
    for cell in [said.at.0, said.at.1] {
        if let Some((address, held)) = cell {
            let value = value_of(rt, held);
            add(rt, &mut at, At { address, value });
        }
    }
    let parts = RowParts {
        location: said.location,
        a: value_of(rt, said.a),
        q: value_of(rt, said.q),
        x: said.x,
        v: said.v,
        at,
        link: None,
    };
    Row::of(parts).expect(rt, "the parts of a row")
}

/// The certificate, if there is one, with a start, some limits, what is stated of some cells at the start, and some rows.
pub(crate) fn certificate(
    rt: &impl Abort,
    alloc: Global,
    start: u16,
    limits: &[Limit],
    firsts: &[(u16, Held)],
    rows: Vec<Row<Value>>,
) -> Option<Cert> {
    let mut init: Vec<Option<Value>> = vec![in alloc; None; 2048].expect(
        rt,
        "memory for the start",
    );
    for &(address, held) in firsts {
        assert!(rt; address < 2048);
        init[address as usize] = Some(value_of(rt, held));
    }
    let limits = limits_of(rt, alloc, limits);
    let parts = CertParts {
        start,
        limits,
        init,
        rows,
    };
    Cert::of(alloc, parts).expect(rt, "memory for a certificate")
}
