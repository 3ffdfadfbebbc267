//! The judge of scales.

ghost use Rattle.std.specs.Prelude.{◌≡◌, ◌≤◌, ◌+◌, ◌*◌, ℕ, length};
ghost use Rattle.ags_domain.specs.Value.{value_meaning};
ghost use Rattle.ags_safe.specs.Accepted.{Accepted};
ghost use Rattle.ags_safe.specs.Certificate.{Suits};
ghost use Rattle.ags_safe.specs.Safe.{Safe};
ghost use Rattle.ags_verdict.specs.Counting.{HaveCases};
ghost use Rattle.ags_certtype.specs.Cert.{certificate_of};
ghost use Rattle.ags_scale.specs.Tagged.{KeepsScales};
ghost use Rattle.ags_scale.specs.Accepted.{AreScalesAccepted};
ghost use Rattle.ags_scale.specs.Scaled.{AreRowsTagged, IsScaled};
ghost use Rattle.ags_scale.specs.declared.answers.Scaled.TheVariants.{Agree};

use crate::answers::{Scaled, TagFault, answer_of};
use crate::tagging::Tagging;
use crate::taking::is_start_tagged;
use ags_certtype::Cert;
use ags_check::{Verdict, check};
use ags_image::Image;
use ags_ports::Machine;
use ags_ports::laws::machine_is_made_of_tables;
use ags_steps::Steps;
use ags_tags::Scales;
use ags_verdict::{AtRow, walk_rows};
use std::sync::ledger::Ledger;

/// What comes of the rows of an accepted certificate for their tags.
fn tagged_rows<L: Ledger>(
    machine: &Machine,
    image: &Image,
    cert: &Cert,
    scales: &Scales,
    steps: &mut Steps<L>,
) -> Result<u64, AtRow<TagFault>>
    requires { Accepted value_meaning machine.now image.now (certificate_of cert.now) }
    ensures tagged { AreRowsTagged value_meaning machine.now image.now (certificate_of cert.now) scales.now result }
    ensures steps { (cases : ℕ) → HaveCases value_meaning image.now cert.now.limits cert.now.rows cases → steps.new ≤ steps.old + cases }
{
    let tagging = Tagging {
        machine,
        image,
        cert,
        scales,
    };
    walk_rows(&tagging, image, cert.limits(), cert.rows(), steps)
}

/// The answer: the verdict's refusal, or that no row holds the start with raw tags, or the first case that fails.
fn answer<L: Ledger>(
    machine: &Machine,
    image: &Image,
    cert: &Cert,
    scales: &Scales,
    steps: &mut Steps<L>,
) -> Scaled
    ensures scaled { IsScaled machine.now image.now (certificate_of cert.now) scales.now result }
    ensures safe { (rows cases : ℕ) → result ≡ Agree rows cases → Suits value_meaning machine.now (certificate_of cert.now)
        → Safe value_meaning machine.now image.now (certificate_of cert.now) }
    ensures steps { (cases : ℕ) → HaveCases value_meaning image.now cert.now.limits cert.now.rows cases → steps.new ≤ steps.old + 2 * cases }
{
    match check(machine, image, cert, steps) {
        Verdict::Certified { rows, cases } => {
            if !is_start_tagged(image, cert, scales) {
                return Scaled::StartMixed;
            }
            match tagged_rows(machine, image, cert, scales, steps) {
                Ok(_) => Scaled::Agree { rows, cases },
                Err(told) => answer_of(told.row, told.fault),
            }
        }
        Verdict::Refused(refusal) => Scaled::Unsafe(refusal),
    }
}

/// Whether scales are accepted that were read for a machine and a certificate's number of rows (docs/SCALES.md): the verdict's refusal
/// where the certificate isn't accepted; or that no row holds the start with raw tags; or else the first case in the verdict's order
/// whose tags mix, or are taken by no row that covers a post. The scales agree just where they are accepted. Where they are, and the
/// certificate is one for the machine's registers, no tagged run over a run from a start faults, and sums, differences and what ALS, LRS
/// and MPY leave without overflow stand for what their scales say. It takes no memory, and at most twice as many steps as the certificate
/// has cases.
pub fn judge<L: Ledger>(
    machine: &Machine,
    image: &Image,
    cert: &Cert,
    scales: &Scales,
    steps: &mut Steps<L>,
) -> Scaled
    requires { length scales.now.rows ≡ length cert.now.rows }
    ensures scaled { IsScaled machine.now image.now (certificate_of cert.now) scales.now result }
    ensures accepted { (rows cases : ℕ) → result ≡ Agree rows cases
        → AreScalesAccepted value_meaning machine.now image.now (certificate_of cert.now) scales.now }
    ensures agree { AreScalesAccepted value_meaning machine.now image.now (certificate_of cert.now) scales.now
        → (cases : ℕ) × (result ≡ Agree (length cert.now.rows) cases) }
    ensures safe { (rows cases : ℕ) → result ≡ Agree rows cases → Suits value_meaning machine.now (certificate_of cert.now)
        → Safe value_meaning machine.now image.now (certificate_of cert.now) }
    ensures kept { (rows cases : ℕ) → result ≡ Agree rows cases → Suits value_meaning machine.now (certificate_of cert.now)
        → KeepsScales value_meaning machine.now image.now (certificate_of cert.now) scales.now }
    ensures steps { (cases : ℕ) → HaveCases value_meaning image.now cert.now.limits cert.now.rows cases → steps.new ≤ steps.old + 2 * cases }
{
    machine_is_made_of_tables(machine);
    answer(machine, image, cert, scales, steps)
}
