//! The bounds of the rows that cover a post.

ghost use Rattle.std.specs.Prelude.{◌≡◌, ◌<◌, ◌≤◌, ◌↔◌, IsTrue, IfSome, None};
ghost use Rattle.ags_domain.specs.Value.{value_meaning};
ghost use Rattle.ags_certtype.specs.Cert.{certificate_of};
ghost use Rattle.ags_safe.specs.Accepted.{IsCovered};
ghost use Rattle.ags_budget.specs.Timing.{IsLeastBound, IsPostInTime};

use ags_certtype::Cert;
use ags_check::laws::cover_asks_nothing_of_a_number;
use ags_check::{EachServes, Serving, covering_row};
use ags_domain::Value;
use ags_row::{Post, Row};
use ags_times::Budget;
use std::marker::Model;

/// That a bound leaves the bound of the row with a number after a time.
#[derive(Drop)]
struct Leaving<'a> {
    budget: &'a Budget,
    time: u32,
    bound: u32,
}

impl<'a> Model for Leaving<'a> {
    ghost use Rattle.std.specs.Prelude.{◌≤◌};
    ghost use Rattle.ags_budget.specs.Asking.{Leaving};

    ghost Value = { Leaving };

    ghost view = { λ l. record { bounds = l.budget.now; time = l.time; bound = l.bound } };

    ghost invariant = { λ l. l.time ≤ 1000 };
}

impl<'a> Serving for Leaving<'a> {
    ghost use Rattle.ags_budget.specs.Asking.{is_left};

    ghost serves = { λ l number. is_left l number };

    fn serves(&self, number: u32) -> bool {
        self.time + self.budget.bound(number) <= self.bound
    }
}

/// That the bound of the row with a number is below another.
#[derive(Drop)]
struct Lesser<'a> {
    budget: &'a Budget,
    least: u32,
}

impl<'a> Model for Lesser<'a> {
    ghost use Rattle.ags_budget.specs.Asking.{Lesser};

    ghost Value = { Lesser };

    ghost view = { λ l. record { bounds = l.budget.now; least = l.least } };
}

impl<'a> Serving for Lesser<'a> {
    ghost use Rattle.ags_budget.specs.Asking.{is_lesser};

    ghost serves = { λ l number. is_lesser l number };

    fn serves(&self, number: u32) -> bool {
        self.budget.bound(number) < self.least
    }
}

/// Whether after a time a bound leaves that of some one row that covers a post of a base row.
pub(crate) fn is_in_time(
    cert: &Cert,
    budget: &Budget,
    bound: u32,
    time: u32,
    base: &Row<Value>,
    post: &Post<Value>,
) -> bool
    requires next { post.now.next < 4096 }
    requires time { time ≤ 1000 }
    ensures { IsTrue result ↔ IsPostInTime value_meaning (certificate_of cert.now) budget.now bound time base.now post.now }
{
    let leaving = Leaving {
        budget,
        time,
        bound,
    };
    covering_row(cert, base, post, &leaving).is_some()
}

/// The least bound of the rows that cover a post of a base row; nothing where none does.
pub(crate) fn least_bound(
    cert: &Cert,
    budget: &Budget,
    base: &Row<Value>,
    post: &Post<Value>,
) -> Option<u32>
    requires { post.now.next < 4096 }
    ensures least { IfSome result (IsLeastBound value_meaning (certificate_of cert.now) budget.now base.now post.now) }
    ensures none { result ≡ None → ¬ IsCovered value_meaning (certificate_of cert.now) base.now post.now }
    ensures most { IfSome result (λ least. least ≤ 20000) }
{
    cover_asks_nothing_of_a_number();
    let Some(first) = covering_row(cert, base, post, &EachServes) else {
        return None;
    };
    let mut number = first;
    loop {
        let least = budget.bound(number);
        let lesser = Lesser { budget, least };
        match covering_row(cert, base, post, &lesser) {
            Some(other) => number = other,
            None => return Some(least),
        }
    }
}
