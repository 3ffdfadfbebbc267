//! What is asked of a case for its time.

ghost use Rattle.std.specs.Prelude.{◌≡◌, ◌<◌, ◌≤◌, ◌+◌, ℕ, Result, IfOk, IfErr, IfSome, Some, None, true, false};
ghost use Rattle.ags_isa.specs.declared.orders.Order.{Order};
ghost use Rattle.ags_domain.specs.Value.{value_meaning};
ghost use Rattle.ags_ports.specs.Time.{time_of};
ghost use Rattle.ags_safe.specs.Going.{GoWithin};
ghost use Rattle.ags_safe.specs.Accepted.{IsCovered};
ghost use Rattle.ags_verdict.specs.RowCase.{case_in};
ghost use Rattle.ags_certtype.specs.Cert.{certificate_of};
ghost use Rattle.ags_budget.specs.Timing.{is_dly, IsOrderOf, IsLate, IsFirstLate, IsPostInTime, ArePostsInTime};
ghost use Rattle.ags_budget.specs.Asking.{IsAsked};

use crate::answers::LateCase;
use crate::covering::{is_in_time, least_bound};
use ags_certtype::Cert;
use ags_domain::Value;
use ags_image::Image;
use ags_isa::{Order, decode};
use ags_ports::Machine;
use ags_ports::laws::machine_is_made_of_tables;
use ags_row::{Post, Row};
use ags_safe::PostPair;
use ags_steps::Steps;
use ags_times::Budget;
use ags_transfer::put_posts;
use ags_verdict::{Judge, OneCase};
use std::sync::ledger::Ledger;

/// A machine, an image and a certificate with the bounds of its rows, as the judge that asks of each accepted case whether it is in
/// time.
#[derive(Drop)]
pub(crate) struct Timing<'a> {
    pub(crate) machine: &'a Machine,
    pub(crate) image: &'a Image,
    pub(crate) cert: &'a Cert,
    pub(crate) budget: &'a Budget,
}

/// What a post needs, and where it goes.
#[derive(Clone, Copy)]
pub(crate) struct Need {
    next: u16,
    needs: u32,
}

/// Whether an order is DLY.
fn is_dly(order: Order) -> bool
    ensures { result ≡ is_dly order }
{
    matches!(order, Order::Dly)
}

/// What a covered post needs, where it is there and that is more than the bound.
fn late(
    cert: &Cert,
    budget: &Budget,
    bound: u32,
    time: u32,
    row: &Row<Value>,
    post: &Option<Post<Value>>,
) -> Option<Need>
    requires time { time ≤ 1000 }
    requires next { IfSome post.now (λ p. p.next < 4096) }
    ensures late { IfSome result (λ need. IsLate value_meaning (certificate_of cert.now) budget.now bound time row.now post.now (Some need.next) need.needs) }
    ensures in_time { IfSome post.now (IsCovered value_meaning (certificate_of cert.now) row.now) → result ≡ None
        → IfSome post.now (IsPostInTime value_meaning (certificate_of cert.now) budget.now bound time row.now) }
{
    match post {
        Some(post) => {
            if is_in_time(cert, budget, bound, time, row, post) {
                return None;
            }
            match least_bound(cert, budget, row, post) {
                Some(least) => Some(Need {
                    next: post.next,
                    needs: time + least,
                }),
                None => None,
            }
        }
        None => None,
    }
}

/// What the first covered post of two needs that is late.
fn first_late(
    cert: &Cert,
    budget: &Budget,
    bound: u32,
    time: u32,
    row: &Row<Value>,
    pair: &PostPair<Value>,
) -> Option<Need>
    requires time { time ≤ 1000 }
    requires next { GoWithin pair.now }
    ensures late { IfSome pair.now.first (IsCovered value_meaning (certificate_of cert.now) row.now)
        → IfSome result (λ need. IsFirstLate value_meaning (certificate_of cert.now) budget.now bound time row.now pair.now (Some need.next) need.needs) }
    ensures in_time { IfSome pair.now.first (IsCovered value_meaning (certificate_of cert.now) row.now)
        → IfSome pair.now.second (IsCovered value_meaning (certificate_of cert.now) row.now) → result ≡ None
        → ArePostsInTime value_meaning (certificate_of cert.now) budget.now bound time row.now pair.now }
{
    match late(cert, budget, bound, time, row, &pair.first) {
        Some(need) => Some(need),
        None => late(cert, budget, bound, time, row, &pair.second),
    }
}

/// A late case.
fn late_case(case: OneCase, next: Option<u16>, needs: u32, bound: u32) -> LateCase
    ensures { result ≡ (record { word = case.word; x = case.index; v = case.indicator; next = next; needs = needs; bound = bound }) }
{
    LateCase {
        word: case.word(),
        x: case.index(),
        v: case.indicator(),
        next,
        needs,
        bound,
    }
}

/// What comes of an accepted case by its posts, where its order isn't DLY and takes this time.
fn timed_by_posts<L: Ledger>(
    timing: &Timing<'_>,
    number: u32,
    time: u32,
    row: &Row<Value>,
    case: OneCase,
    steps: &mut Steps<L>,
) -> Result<u64, LateCase>
    requires time { time ≤ 1000 }
    requires order { (order : Order) × IsOrderOf (case_in timing.now.machine.now timing.now.image.now timing.now.cert.now.limits row.now case) order
        × (is_dly order ≡ false) × (time ≡ time_of timing.now.machine.now.times order) }
    ensures judged { IsAsked timing.now.machine.now timing.now.image.now timing.now.cert.now timing.now.budget.now number row.now case result }
    ensures once { IfOk result (λ count. count ≡ 1) }
    ensures step { steps.new ≡ steps.old + 1 }
{
    machine_is_made_of_tables(timing.machine);
    let bound = timing.budget.bound(number);
    let mut pair = PostPair {
        first: None,
        second: None,
    };
    match put_posts(
        timing.machine,
        timing.image,
        timing.cert.limits(),
        row,
        case.word(),
        case.index(),
        case.indicator(),
        steps,
        &mut pair,
    ) {
        Ok(()) => match first_late(timing.cert, timing.budget, bound, time, row, &pair) {
            Some(need) => Err(late_case(case, Some(need.next), need.needs, bound)),
            None => Ok(1),
        },
        Err(_) => Ok(1),
    }
}

/// What comes of an accepted case of DLY, which takes this time.
fn timed_by_delay(bound: u32, time: u32, case: OneCase) -> Result<u64, LateCase>
    ensures fine { IfOk result (λ count. (count ≡ 1) × (time ≤ bound)) }
    ensures late { IfErr result (λ late. (bound < time)
        × (late ≡ record { word = case.word; x = case.index; v = case.indicator; next = None; needs = time; bound = bound })) }
{
    if bound < time {
        Err(late_case(case, None, time, bound))
    } else {
        Ok(1)
    }
}

/// What comes of an accepted case.
fn timed<L: Ledger>(
    timing: &Timing<'_>,
    number: u32,
    row: &Row<Value>,
    case: OneCase,
    steps: &mut Steps<L>,
) -> Result<u64, LateCase>
    ensures judged { IsAsked timing.now.machine.now timing.now.image.now timing.now.cert.now timing.now.budget.now number row.now case result }
    ensures once { IfOk result (λ count. count ≡ 1) }
    ensures step { steps.new ≤ steps.old + 1 }
{
    match decode(&timing.machine.codes, case.word()) {
        Some(decoded) => {
            let time = timing.machine.time_of(decoded.order);
            if is_dly(decoded.order) {
                timed_by_delay(timing.budget.bound(number), time, case)
            } else {
                timed_by_posts(timing, number, time, row, case, steps)
            }
        }
        None => Ok(1),
    }
}

impl<'a, L: Ledger> Judge<Value, L> for Timing<'a> {
    ghost use Rattle.std.specs.Prelude.{Ok};
    ghost use Rattle.ags_budget.specs.Asking.{IsAsked};

    type Fault = LateCase;

    ghost judges = { λ t number row c outcome. IsAsked t.machine.now t.image.now t.cert.now t.budget.now number row c outcome };

    ghost unknown = { Ok 0 };

    fn code_unknown(&self) -> Result<u64, LateCase> {
        Ok(0)
    }

    fn case(
        &self,
        number: u32,
        row: &Row<Value>,
        case: OneCase,
        steps: &mut Steps<L>,
    ) -> Result<u64, LateCase> {
        timed(self, number, row, case, steps)
    }
}
