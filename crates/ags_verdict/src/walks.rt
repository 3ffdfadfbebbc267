//! The walk over the cases of a row, and over rows: one loop each.

ghost use Rattle.std.specs.Prelude.{◌≡◌, ◌+◌, ◌≤◌, ℕ, IfOk, length};
ghost use Rattle.ags_verdict.specs.InOrder.{InOrder};
ghost use Rattle.ags_verdict.specs.Walk.{IsWalked, IsWalkedAt, AreWalked};
ghost use Rattle.ags_verdict.specs.Counting.{HasCases, HaveCases};

use crate::judges::Judge;
use crate::listing::cases_of;
use crate::lists::OneCase;
use ags_domain::Domain;
use ags_image::Image;
use ags_row::{Limits, Row};
use ags_steps::Steps;
use ags_transfer::code;
use std::sync::ledger::Ledger;

/// What is told of a row that fails.
#[derive(Drop)]
pub struct AtRow<F> {
    /// The row's number, from 1.
    pub row: u32,
    /// What fails first in it.
    pub fault: F,
}

/// What comes of some cases of a row, in order.
fn walk_cases<D: Domain, L: Ledger, J: Judge<D, L>>(
    judge: &J,
    number: u32,
    row: &Row<D>,
    cases: &[OneCase],
    steps: &mut Steps<L>,
) -> Result<u64, J::Fault>
    ensures judged { InOrder (λ position c. J.judges judge.now number row.now c) 0 cases.now result }
    ensures counted { IfOk result (λ count. count ≡ length cases.now) }
    ensures steps { steps.new ≤ steps.old + length cases.now }
{
    let mut count: u64 = 0;
    for case in cases {
        match judge.case(number, row, *case, steps) {
            Ok(more) => count += more,
            Err(fault) => return Err(fault),
        }
    }
    Ok(count)
}

/// What comes of a row with a number: how many of its cases count, at most 256, or what fails first in it. It takes at most as many
/// steps as the row has cases.
pub fn walk_row<D: Domain, L: Ledger, J: Judge<D, L>>(
    judge: &J,
    image: &Image,
    limits: &Limits<D>,
    number: u32,
    row: &Row<D>,
    steps: &mut Steps<L>,
) -> Result<u64, J::Fault>
    ensures judged { IsWalked D.meaning image.now limits.now J.unknown (J.judges judge.now) number row.now result }
    ensures few { IfOk result (λ count. count ≤ 256) }
    ensures steps { (cases : ℕ) → HasCases D.meaning image.now limits.now row.now cases → steps.new ≤ steps.old + cases }
{
    match code(image, limits, row) {
        Some(set) => walk_cases(
            judge,
            number,
            row,
            cases_of(row, set.words()).as_slice(),
            steps,
        ),
        None => judge.code_unknown(),
    }
}

/// The same, and a fault tells the row's number.
fn walk_row_at<D: Domain, L: Ledger, J: Judge<D, L>>(
    judge: &J,
    image: &Image,
    limits: &Limits<D>,
    number: u32,
    row: &Row<D>,
    steps: &mut Steps<L>,
) -> Result<u64, AtRow<J::Fault>>
    ensures judged { IsWalkedAt D.meaning image.now limits.now J.unknown (J.judges judge.now) number row.now result }
    ensures few { IfOk result (λ count. count ≤ 256) }
    ensures steps { (cases : ℕ) → HasCases D.meaning image.now limits.now row.now cases → steps.new ≤ steps.old + cases }
{
    match walk_row(judge, image, limits, number, row, steps) {
        Ok(count) => Ok(count),
        Err(fault) => Err(AtRow { row: number, fault }),
    }
}

/// What comes of rows, which are numbered from 1: how many of their cases count, or what fails first in them. It takes at most as
/// many steps as they have cases, also where one fails; a row without a code has none.
pub fn walk_rows<D: Domain, L: Ledger, J: Judge<D, L>>(
    judge: &J,
    image: &Image,
    limits: &Limits<D>,
    rows: &[Row<D>],
    steps: &mut Steps<L>,
) -> Result<u64, AtRow<J::Fault>>
    requires { length rows.now ≤ 20000 }
    ensures judged { AreWalked D.meaning image.now limits.now J.unknown (J.judges judge.now) rows.now result }
    ensures steps { (cases : ℕ) → HaveCases D.meaning image.now limits.now rows.now cases → steps.new ≤ steps.old + cases }
{
    let mut count: u64 = 0;
    let mut number: u32 = 0;
    for row in rows {
        number += 1;
        match walk_row_at(judge, image, limits, number, row, steps) {
            Ok(cases) => count += cases,
            Err(fault) => return Err(fault),
        }
    }
    Ok(count)
}
