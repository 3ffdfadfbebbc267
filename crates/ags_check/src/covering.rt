//! The row that covers a post.

ghost use Rattle.std.specs.Prelude.{◌≡◌, ◌<◌};
ghost use Rattle.ags_domain.specs.Value.{value_meaning};
ghost use Rattle.ags_certtype.specs.Cert.{certificate_of};
ghost use Rattle.ags_check.specs.Finding.{IsFound, IsCover};

use crate::finding::{RowTest, find_row_from};
use crate::serving::Serving;
use ags_certtype::Cert;
use ags_domain::Value;
use ags_row::{Limits, Post, Row, covers};
use std::cell::Cell;
use std::marker::Model;

/// That a row covers a post of a base row, and a further condition holds of its number.
#[derive(Drop)]
struct Covering<'a, S: Serving> {
    base: &'a Row<Value>,
    post: &'a Post<Value>,
    limits: &'a Limits<Value>,
    serving: &'a S,
}

impl<'a, S: Serving> Model for Covering<'a, S> {
    ghost use Rattle.ags_check.specs.Asking.{Covering};

    ghost Value = { Covering S };

    ghost view = { λ c. record { base = c.base.now; post = c.post.now; limits = c.limits.now; serving = c.serving.now } };
}

impl<'a, S: Serving> RowTest for Covering<'a, S> {
    ghost use Rattle.ags_domain.specs.Value.{value_meaning};
    ghost use Rattle.ags_row.specs.Cover.{Covers};

    ghost has = { λ c number target. Covers value_meaning target c.base c.post c.limits × S.serves c.serving number };

    #[inline]
    fn passes(&self, number: u32, row: &Row<Value>) -> bool {
        covers(row, self.base, self.post, self.limits) && self.serving.serves(number)
    }
}

/// The number of a row that covers a post of a base row, where a further condition holds of that number, and nothing where there is
/// no such row. Which of several isn't said. Rows are counted from 1. It takes no memory.
pub fn covering_row<S: Serving>(
    cert: &Cert,
    base: &Row<Value>,
    post: &Post<Value>,
    serving: &S,
) -> Option<u32>
    requires { post.now.next < 4096 }
    ensures { IsFound (IsCover value_meaning (certificate_of cert.now) (S.serves serving.now) base.now post.now) cert.now.rows result }
{
    covering_row_after(cert, base, post, serving, &Cell::new(0))
}

/// The same, after a row with a number covered another post: that row is looked at first, since posts of cases that stand side by
/// side are mostly covered by one. Its number is kept for the next post.
pub(crate) fn covering_row_after<S: Serving>(
    cert: &Cert,
    base: &Row<Value>,
    post: &Post<Value>,
    serving: &S,
    last: &Cell<u32>,
) -> Option<u32>
    requires { post.now.next < 4096 }
    ensures { IsFound (IsCover value_meaning (certificate_of cert.now) (S.serves serving.now) base.now post.now) cert.now.rows result }
{
    let covering = Covering {
        base,
        post,
        limits: cert.limits(),
        serving,
    };
    let found = find_row_from(cert, post.next, &covering, last.get());
    keep(last, found);
    found
}

/// Keeps the number of a row that was found.
fn keep(last: &Cell<u32>, found: Option<u32>) {
    if let Some(number) = found {
        last.set(number);
    }
}
