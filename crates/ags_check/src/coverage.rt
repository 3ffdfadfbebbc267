//! Whether the posts of a case are covered.

ghost use Rattle.std.specs.Prelude.{◌≡◌, ◌<◌, None, IfSome};
ghost use Rattle.ags_domain.specs.Value.{value_meaning};
ghost use Rattle.ags_safe.specs.Going.{GoWithin};
ghost use Rattle.ags_safe.specs.Accepted.{IsCovered};
ghost use Rattle.ags_verdict.specs.Fault.{IsUncovered, IsFirstUncovered};
ghost use Rattle.ags_certtype.specs.Cert.{certificate_of};

use crate::covering::covering_row_after;
use crate::serving::EachServes;
use ags_certtype::Cert;
use ags_domain::Value;
use ags_row::{Post, Row};
use ags_safe::PostPair;
use std::cell::Cell;

/// The numbers of the rows that covered the last first post and the last second one, or 0. They tell where to look first, and no more.
#[derive(Drop)]
pub(crate) struct LastCovering {
    first: Cell<u32>,
    second: Cell<u32>,
}

impl LastCovering {
    /// No rows.
    pub(crate) fn new() -> LastCovering {
        LastCovering {
            first: Cell::new(0),
            second: Cell::new(0),
        }
    }
}

/// The location of a post that no one row covers, where there is a post.
fn uncovered(
    cert: &Cert,
    row: &Row<Value>,
    post: &Option<Post<Value>>,
    last: &Cell<u32>,
) -> Option<u16>
    requires { IfSome post.now (λ p. p.next < 4096) }
    ensures covered { result ≡ None → IfSome post.now (IsCovered value_meaning (certificate_of cert.now) row.now) }
    ensures uncovered { IfSome result (IsUncovered value_meaning (certificate_of cert.now) row.now post.now) }
{
    match post {
        Some(post) => match covering_row_after(cert, row, post, &EachServes, last) {
            Some(_) => None,
            None => Some(post.next),
        },
        None => None,
    }
}

/// The location of the first post of two that no one row covers, and nothing where each is covered. It takes no memory.
pub fn first_uncovered(cert: &Cert, row: &Row<Value>, pair: &PostPair<Value>) -> Option<u16>
    requires { GoWithin pair.now }
    ensures first { result ≡ None → IfSome pair.now.first (IsCovered value_meaning (certificate_of cert.now) row.now) }
    ensures second { result ≡ None → IfSome pair.now.second (IsCovered value_meaning (certificate_of cert.now) row.now) }
    ensures uncovered { IfSome result (IsFirstUncovered value_meaning (certificate_of cert.now) row.now pair.now) }
{
    first_uncovered_after(cert, row, pair, &LastCovering::new())
}

/// The same, after other posts were covered.
pub(crate) fn first_uncovered_after(
    cert: &Cert,
    row: &Row<Value>,
    pair: &PostPair<Value>,
    last: &LastCovering,
) -> Option<u16>
    requires { GoWithin pair.now }
    ensures first { result ≡ None → IfSome pair.now.first (IsCovered value_meaning (certificate_of cert.now) row.now) }
    ensures second { result ≡ None → IfSome pair.now.second (IsCovered value_meaning (certificate_of cert.now) row.now) }
    ensures uncovered { IfSome result (IsFirstUncovered value_meaning (certificate_of cert.now) row.now pair.now) }
{
    match uncovered(cert, row, &pair.first, &last.first) {
        Some(next) => Some(next),
        None => uncovered(cert, row, &pair.second, &last.second),
    }
}
