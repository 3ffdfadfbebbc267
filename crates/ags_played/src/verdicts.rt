//! The verdict of a certificate, with a counter of its own, and its line and status. No command tells how many steps a verdict took:
//! their bound is a clause of `check`.

ghost use Rattle.std.specs.Prelude.{◌≡◌, ◌<◌, IfOk};
ghost use Rattle.std.specs.String.{string_bytes};
ghost use Rattle.ags_domain.specs.Value.{value_meaning};
ghost use Rattle.ags_verdict.specs.Verdict.{IsVerdict};
ghost use Rattle.ags_cert.specs.Cert.{certificate_of};
ghost use Rattle.ags_program.specs.Text.{verdict_line};
ghost use Rattle.ags_program.specs.Work as work;

use ags_cert::Cert;
use ags_check::{Verdict, check};
use ags_image::Image;
use ags_ports::Machine;
use ags_program::Status;
use ags_steps::Steps;
use std::alloc::{AllocError, Global};
use std::marker::Brand;
use std::sync::ledger::{Blank, Ledger};

/// The verdict, with a counter on the ledger of a blank.
fn verdict_from<L: Ledger>(machine: &Machine, image: &Image, cert: &Cert, blank: Blank) -> Verdict
    requires name { blank.name ≡ L.name }
    requires parts { blank.parts ≡ L.parts }
    requires some { 0 < L.parts }
    ensures { IsVerdict value_meaning machine.now image.now (certificate_of cert.now) result }
{
    let mut steps = Steps::<L>::new(blank);
    check(machine, image, cert, &mut steps)
}

/// The verdict of a certificate for an image on a machine: that it is certified, or the first item that fails (docs/CHECKER.md, The
/// verdict). It takes no memory.
pub fn verdict_of(machine: &Machine, image: &Image, cert: &Cert) -> Verdict
    ensures verdict { IsVerdict value_meaning machine.now image.now (certificate_of cert.now) result }
{
    verdict_from::<Brand>(machine, image, cert, Blank::new(1))
}

/// The line of a verdict, with its line feed. The one error is want of memory.
pub fn verdict_line(alloc: Global, verdict: &Verdict) -> Result<String, AllocError>
    ensures { IfOk result (λ line. string_bytes line ≡ verdict_line verdict.now) }
{
    format!(in alloc; "{verdict}\n")
}

/// The status of a verdict: `Done` where it is certified, and else `No`.
pub fn verdict_status(verdict: &Verdict) -> Status
    ensures { result ≡ work.verdict_status verdict.now }
{
    match verdict {
        Verdict::Certified { .. } => Status::Done,
        Verdict::Refused(_) => Status::No,
    }
}
