//! The judge of budgets.

ghost use Rattle.std.specs.Prelude.{◌≡◌, ◌≤◌, ◌+◌, ◌*◌, ℕ, length};
ghost use Rattle.ags_domain.specs.Value.{value_meaning};
ghost use Rattle.ags_safe.specs.Accepted.{Accepted};
ghost use Rattle.ags_safe.specs.Certificate.{Suits};
ghost use Rattle.ags_safe.specs.Safe.{Safe};
ghost use Rattle.ags_verdict.specs.Counting.{HaveCases};
ghost use Rattle.ags_certtype.specs.Cert.{certificate_of};
ghost use Rattle.ags_budget.specs.Spent.{KeepsBounds};
ghost use Rattle.ags_budget.specs.Timed.{AreRowsTimed, IsTimed};
ghost use Rattle.ags_budget.specs.declared.answers.Timed.TheVariants.{Within};

use crate::answers::{LateCase, Timed, over};
use crate::timing::Timing;
use ags_certtype::Cert;
use ags_check::{Verdict, check};
use ags_image::Image;
use ags_ports::Machine;
use ags_ports::laws::machine_is_made_of_tables;
use ags_steps::Steps;
use ags_times::Budget;
use ags_verdict::{AtRow, walk_rows};
use std::sync::ledger::Ledger;

/// What comes of the rows of an accepted certificate for their times.
fn timed_rows<L: Ledger>(
    machine: &Machine,
    image: &Image,
    cert: &Cert,
    budget: &Budget,
    steps: &mut Steps<L>,
) -> Result<u64, AtRow<LateCase>>
    requires { Accepted value_meaning machine.now image.now (certificate_of cert.now) }
    ensures timed { AreRowsTimed value_meaning machine.now image.now (certificate_of cert.now) budget.now result }
    ensures steps { (cases : ℕ) → HaveCases value_meaning image.now cert.now.limits cert.now.rows cases → steps.new ≤ steps.old + cases }
{
    let timing = Timing {
        machine,
        image,
        cert,
        budget,
    };
    walk_rows(&timing, image, cert.limits(), cert.rows(), steps)
}

/// Whether a budget is accepted that was read for a certificate's number of rows (docs/TIMES.md): the verdict's refusal where the
/// certificate isn't, or else the first case in the verdict's order that needs more than its row's bound. Where the budget is accepted
/// and the certificate is one for the machine's registers, the order time since the last resume stays in every run within the bound of
/// each row that held the state then. It takes no memory, and at most twice as many steps as the certificate has cases.
pub fn judge<L: Ledger>(
    machine: &Machine,
    image: &Image,
    cert: &Cert,
    budget: &Budget,
    steps: &mut Steps<L>,
) -> Timed
    requires { length budget.now ≡ length cert.now.rows }
    ensures timed { IsTimed machine.now image.now (certificate_of cert.now) budget.now result }
    ensures safe { (rows cases greatest : ℕ) → result ≡ Within rows cases greatest → Suits value_meaning machine.now (certificate_of cert.now)
        → Safe value_meaning machine.now image.now (certificate_of cert.now) }
    ensures kept { (rows cases greatest : ℕ) → result ≡ Within rows cases greatest → Suits value_meaning machine.now (certificate_of cert.now)
        → KeepsBounds value_meaning machine.now image.now (certificate_of cert.now) budget.now }
    ensures steps { (cases : ℕ) → HaveCases value_meaning image.now cert.now.limits cert.now.rows cases → steps.new ≤ steps.old + 2 * cases }
{
    machine_is_made_of_tables(machine);
    budget.bounds_are_times();
    match check(machine, image, cert, steps) {
        Verdict::Certified { rows, cases } => {
            match timed_rows(machine, image, cert, budget, steps) {
                Ok(_) => Timed::Within {
                    rows,
                    cases,
                    greatest: budget.greatest(),
                },
                Err(told) => over(told.row, told.fault),
            }
        }
        Verdict::Refused(refusal) => Timed::Unsafe(refusal),
    }
}
