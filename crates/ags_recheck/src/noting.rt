//! A row judged, with the locations of its posts.

ghost use Rattle.std.specs.Prelude.{◌≡◌, ◌≢◌, ◌+◌, ◌<◌, ◌≤◌, ◌⊎◌, ◌↔◌, ℕ, true, false, Any, IfOk, IfSome, Ok, length};
ghost use Rattle.ags_domain.specs.Value.{value_meaning};
ghost use Rattle.ags_safe.specs.Going.{GoWithin};
ghost use Rattle.ags_verdict.specs.Fault.{IsCaseJudged};
ghost use Rattle.ags_verdict.specs.InOrder.{InOrder};
ghost use Rattle.ags_verdict.specs.Locality.{GoesTo, OneGoesTo, CaseGoesTo};
ghost use Rattle.ags_verdict.specs.RowCase.{case_in};
ghost use Rattle.ags_verdict.specs.Counting.{HasCases};
ghost use Rattle.ags_certtype.specs.Cert.{certificate_of};
ghost use Rattle.ags_recheck.specs.Locations.{has_location};
ghost use Rattle.ags_recheck.specs.Kept.{IsRowKept};

use crate::joining::join;
use crate::locations::Locations;
use ags_certtype::Cert;
use ags_check::{RowFault, first_uncovered};
use ags_domain::Value;
use ags_image::Image;
use ags_ports::Machine;
use ags_ports::laws::machine_is_made_of_tables;
use ags_row::{Post, Row};
use ags_steps::Steps;
use ags_transfer::{PostPair, code, put_posts};
use ags_verdict::{OneCase, cases_of};
use std::sync::ledger::Ledger;

/// Notes where a post goes, if it is there.
fn note(locations: &mut Locations, post: &Option<Post<Value>>)
    requires { IfSome post.now (λ p. p.next < 4096) }
    ensures { (location : ℕ) → (has_location locations.new location ≡ true) ↔ ((has_location locations.old location ≡ true) ⊎ GoesTo post.now location) }
{
    if let Some(post) = post {
        locations.note(post.next);
    }
}

/// Notes where the posts of a case go.
fn note_pair(locations: &mut Locations, pair: &PostPair<Value>)
    requires { GoWithin pair.now }
    ensures { (location : ℕ) → (has_location locations.new location ≡ true) ↔ ((has_location locations.old location ≡ true) ⊎ OneGoesTo pair.now location) }
{
    note(locations, &pair.first);
    note(locations, &pair.second);
}

/// A case counts once, or fails; and where its posts go is noted.
fn case_noted<L: Ledger>(
    machine: &Machine,
    image: &Image,
    cert: &Cert,
    row: &Row<Value>,
    case: OneCase,
    locations: &mut Locations,
    steps: &mut Steps<L>,
) -> Result<u64, RowFault>
    ensures judged { IsCaseJudged value_meaning (certificate_of cert.now) (case_in machine.now image.now cert.now.limits row.now case) result }
    ensures noted { (location : ℕ) → (has_location locations.new location ≡ true) ↔ ((has_location locations.old location ≡ true)
        ⊎ CaseGoesTo value_meaning machine.now image.now cert.now.limits (case_in machine.now image.now cert.now.limits row.now case) location) }
    ensures once { IfOk result (λ count. count ≡ 1) }
    ensures step { steps.new ≡ steps.old + 1 }
{
    machine_is_made_of_tables(machine);
    let mut pair = PostPair {
        first: None,
        second: None,
    };
    let word = case.word();
    let x = case.index();
    let v = case.indicator();
    match put_posts(
        machine,
        image,
        cert.limits(),
        row,
        word,
        x,
        v,
        steps,
        &mut pair,
    ) {
        Ok(()) => {
            note_pair(locations, &pair);
            match first_uncovered(cert, row, &pair) {
                Some(next) => Err(RowFault::NotCovered { word, x, v, next }),
                None => Ok(1),
            }
        }
        Err(stop) => Err(RowFault::Stops { word, stop }),
    }
}

/// What comes of some cases of a row, in order; and where the posts of each go is noted.
fn cases_noted<L: Ledger>(
    machine: &Machine,
    image: &Image,
    cert: &Cert,
    row: &Row<Value>,
    cases: &[OneCase],
    locations: &mut Locations,
    steps: &mut Steps<L>,
) -> Result<u64, RowFault>
    requires few { length cases.now ≤ 256 }
    requires empty { (location : ℕ) → has_location locations.old location ≡ false }
    ensures judged { InOrder (λ position c o. IsCaseJudged value_meaning (certificate_of cert.now)
        (case_in machine.now image.now cert.now.limits row.now c) o) 0 cases.now result }
    ensures noted { (location : ℕ) → (has_location locations.new location ≡ true)
        ↔ Any (λ c. CaseGoesTo value_meaning machine.now image.now cert.now.limits (case_in machine.now image.now cert.now.limits row.now c) location) cases.now }
    ensures counted { IfOk result (λ count. count ≤ 256) }
    ensures steps { steps.new ≡ steps.old + length cases.now }
{
    let mut outcome: Result<u64, RowFault> = Ok(0);
    for case in cases {
        let one = case_noted(machine, image, cert, row, *case, locations, steps);
        outcome = join(outcome, one);
    }
    outcome
}

/// How many cases a row has, or what fails first in it; and where the posts of its cases go. It takes a step for each case.
pub(crate) fn row_noted<L: Ledger>(
    machine: &Machine,
    image: &Image,
    cert: &Cert,
    row: &Row<Value>,
    locations: &mut Locations,
    steps: &mut Steps<L>,
) -> Result<u64, RowFault>
    ensures kept { IsRowKept machine.now image.now cert.now row.now result locations.new }
    ensures steps { (cases : ℕ) → HasCases value_meaning image.now cert.now.limits row.now cases → steps.new ≤ steps.old + cases }
{
    locations.clear();
    match code(image, cert.limits(), row) {
        Some(set) => cases_noted(
            machine,
            image,
            cert,
            row,
            cases_of(row, set.words()).as_slice(),
            locations,
            steps,
        ),
        None => Err(RowFault::CodeUnknown),
    }
}
