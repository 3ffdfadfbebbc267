//! The verdict of a certificate in hand.

ghost use Rattle.std.specs.Prelude.{◌≡◌, ◌≤◌, ◌+◌, ◌↔◌, ℕ, length};
ghost use Rattle.ags_domain.specs.Value.{value_meaning};
ghost use Rattle.ags_domain.specs.declared.values.Value.{Value};
ghost use Rattle.ags_safe.specs.Certificate.{Suits};
ghost use Rattle.ags_safe.specs.Safe.{Safe};
ghost use Rattle.ags_safe.specs.Accepted.{Accepted};
ghost use Rattle.ags_safe.specs.Failing.{Fault, IsFirstFault};
ghost use Rattle.ags_verdict.specs.InOrder.{InOrder};
ghost use Rattle.ags_verdict.specs.Fault.{IsRowJudgedAt};
ghost use Rattle.ags_verdict.specs.Verdict.{IsVerdict};
ghost use Rattle.ags_verdict.specs.Flat.{IsNumberOfCases};
ghost use Rattle.ags_verdict.specs.declared.verdicts.Refusal.{Refusal};
ghost use Rattle.ags_verdict.specs.declared.verdicts.Verdict.TheVariants.{Certified, Refused};
ghost use Rattle.ags_verdict.specs.Counting.{HaveCases};
ghost use Rattle.ags_check.specs.Told.{refusal_of_fault};
ghost use Rattle.ags_certtype.specs.Cert.{certificate_of};

use crate::accepting::Accepting;
use crate::answers::{Refusal, Verdict};
use crate::firsts::{first_outside, first_word};
use crate::refusals::refusal_at;
use crate::serving::EachServes;
use crate::starts::start_row;
use ags_certtype::Cert;
use ags_image::Image;
use ags_ports::Machine;
use ags_ports::laws::machine_is_made_of_tables;
use ags_steps::Steps;
use ags_verdict::walk_rows;
use std::sync::ledger::Ledger;

/// How many rows a certificate has.
fn number_of_rows(cert: &Cert) -> u32
    ensures number { result ≡ length cert.now.rows }
    ensures few { result ≤ 20000 }
{
    cert.rows().len() as u32
}

/// How many cases the rows of a certificate have, or what fails first in them.
fn judged_rows<L: Ledger>(
    machine: &Machine,
    image: &Image,
    cert: &Cert,
    steps: &mut Steps<L>,
) -> Result<u64, Refusal>
    ensures judged { InOrder (IsRowJudgedAt value_meaning (certificate_of cert.now) machine.now image.now) 1 cert.now.rows result }
    ensures steps { (cases : ℕ) → HaveCases value_meaning image.now cert.now.limits cert.now.rows cases → steps.new ≤ steps.old + cases }
{
    let accepting = Accepting::new(machine, image, cert);
    refusal_at(walk_rows(&accepting, image, cert.limits(), cert.rows(), steps))
}

/// The verdict.
fn verdict<L: Ledger>(
    machine: &Machine,
    image: &Image,
    cert: &Cert,
    steps: &mut Steps<L>,
) -> Verdict
    ensures verdict { IsVerdict value_meaning machine.now image.now (certificate_of cert.now) result }
    ensures steps { (cases : ℕ) → HaveCases value_meaning image.now cert.now.limits cert.now.rows cases → steps.new ≤ steps.old + cases }
{
    if let Some(address) = first_outside(image, cert) {
        let word = first_word(image, address);
        return Verdict::Refused(Refusal::InitRange { address, word });
    }
    if start_row(image, cert, &EachServes).is_none() {
        return Verdict::Refused(Refusal::StartUncovered);
    }
    match judged_rows(machine, image, cert, steps) {
        Ok(cases) => Verdict::Certified {
            rows: number_of_rows(cert),
            cases,
        },
        Err(refusal) => Verdict::Refused(refusal),
    }
}

/// The verdict of a certificate for an image on a machine: how many rows and cases it has, or the first item that fails
/// (docs/CHECKER.md, When a certificate is accepted). Just an accepted certificate is certified, and a refusal tells the fault of the
/// first item that fails. Where the certificate is one for the machine's registers and is certified, every run of every length is
/// safe. It takes no memory, and at most as many steps as the rows have cases together, also where it refuses; a row without a code
/// has none.
pub fn check<L: Ledger>(
    machine: &Machine,
    image: &Image,
    cert: &Cert,
    steps: &mut Steps<L>,
) -> Verdict
    ensures verdict { IsVerdict value_meaning machine.now image.now (certificate_of cert.now) result }
    ensures safe { (rows cases : ℕ) → result ≡ Certified rows cases
        → Suits value_meaning machine.now (certificate_of cert.now)
        → Safe value_meaning machine.now image.now (certificate_of cert.now) }
    ensures certified { Accepted value_meaning machine.now image.now (certificate_of cert.now)
        → (cases : ℕ) × (result ≡ Certified (length cert.now.rows) cases) }
    ensures accepted { (rows cases : ℕ) → result ≡ Certified rows cases
        → Accepted value_meaning machine.now image.now (certificate_of cert.now) × (rows ≡ length cert.now.rows)
        × IsNumberOfCases value_meaning image.now cert.now.limits cert.now.rows cases }
    ensures refused { (refusal : Refusal Value) → (result ≡ Refused refusal)
        ↔ ((fault : Fault Value) × IsFirstFault value_meaning machine.now image.now (certificate_of cert.now) fault
        × (refusal ≡ refusal_of_fault fault)) }
    ensures steps { (cases : ℕ) → HaveCases value_meaning image.now cert.now.limits cert.now.rows cases → steps.new ≤ steps.old + cases }
{
    machine_is_made_of_tables(machine);
    let _first = image.get(0);
    let _start = cert.start();
    verdict(machine, image, cert, steps)
}
