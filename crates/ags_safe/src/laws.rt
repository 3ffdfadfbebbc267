//! That an accepted certificate is kept by every run, and that one is accepted where no item fails. Each law is what a function that
//! does nothing ensures, so that it is proved with the crate.

ghost use Rattle.std.specs.Prelude.{◌≡◌, ◌↔◌, ℕ, List, Option, None, All};
ghost use Rattle.ags_ports.specs.Machine.{IsMachine};
ghost use Rattle.ags_image.specs.Image.{IsImage};
ghost use Rattle.ags_ports.specs.State.{State};
ghost use Rattle.ags_safe.specs.Certificate.{Certificate, IsCertificate, Suits};
ghost use Rattle.ags_safe.specs.Start.{IsStart};
ghost use Rattle.ags_safe.specs.Safe.{Safe};
ghost use Rattle.ags_safe.specs.Accepted.{Accepted};
ghost use Rattle.ags_safe.specs.Plain.{PlainlyAccepted};
ghost use Rattle.ags_safe.specs.Failing.{Item, Fault, Fails, IsFirstFault, AreAnswered};

use ags_domain::Domain;
use ags_ports::Machine;

/// Where a certificate for the machine's registers is accepted, every run of every length is safe: its cells, inputs and outputs stay
/// in their limits, no order outside the named places overflows, only locations of rows are run, and no fixed cell is written.
pub fn accepted_certificates_are_safe<D: Domain>()
    ensures { (machine : Machine) (image : List (Option ℕ)) (cert : Certificate D) → IsMachine machine
        → IsCertificate D.meaning cert → Suits D.meaning machine cert → Accepted D.meaning machine image cert
        → Safe D.meaning machine image cert }
{}

/// Each certificate has a start over each image: what is said of every run is said of some.
pub fn each_certificate_has_a_start<D: Domain>()
    ensures { (machine : Machine) (image : List (Option ℕ)) (cert : Certificate D) → IsImage image
        → IsCertificate D.meaning cert → (s : State) × IsStart D.meaning machine image cert s }
{}

/// No item of an accepted certificate fails; and where each row's words are known or too many, and each case has posts or a reason why
/// it has none, a certificate of which no item fails is accepted.
pub fn accepted_is_that_no_item_fails<D: Domain>()
    ensures none { (machine : Machine) (image : List (Option ℕ)) (cert : Certificate D) (item : Item) (fault : Fault D)
        → IsMachine machine → Accepted D.meaning machine image cert → ¬ Fails D.meaning machine image cert item fault }
    ensures accepted { (machine : Machine) (image : List (Option ℕ)) (cert : Certificate D)
        → AreAnswered D.meaning machine image cert
        → ((item : Item) (fault : Fault D) → ¬ Fails D.meaning machine image cert item fault)
        → Accepted D.meaning machine image cert }
{}

/// Of the items that fail one is the first, and one fault is told of it.
pub fn first_fault_is_one<D: Domain>()
    ensures { (machine : Machine) (image : List (Option ℕ)) (cert : Certificate D) (fault other : Fault D) → IsMachine machine
        → IsFirstFault D.meaning machine image cert fault → IsFirstFault D.meaning machine image cert other → fault ≡ other }
{}

/// A certificate in which no row has a link is accepted just where it is by the table of orders without links.
pub fn accepted_without_links_is_plain<D: Domain>()
    ensures { (machine : Machine) (image : List (Option ℕ)) (cert : Certificate D) → All (λ row. row.link ≡ None) cert.rows
        → (Accepted D.meaning machine image cert ↔ PlainlyAccepted D.meaning machine image cert) }
{}
