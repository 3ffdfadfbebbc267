//! What accepted scales mean. Each law is what a function that does nothing ensures, so that it is proved with the crate.

ghost use Rattle.std.specs.Prelude.{◌≡◌, ℕ, List, length, Option};
ghost use Rattle.ags_domain.specs.Value.{value_meaning};
ghost use Rattle.ags_domain.specs.declared.values.Value.{Value};
ghost use Rattle.ags_image.specs.Image.{IsImage};
ghost use Rattle.ags_ports.specs.Machine.{IsMachine};
ghost use Rattle.ags_ports.specs.State.{State};
ghost use Rattle.ags_ports.specs.declared.events.Event.{Event};
ghost use Rattle.ags_ports.specs.declared.machines.Machine.{Machine};
ghost use Rattle.ags_safe.specs.Certificate.{Certificate};
ghost use Rattle.ags_safe.specs.Safe.{Safe};
ghost use Rattle.ags_tags.specs.Tag.{Scaling};
ghost use Rattle.ags_scale.specs.Accepted.{AreScalesAccepted};
ghost use Rattle.ags_scale.specs.Scaled.{IsScaled};
ghost use Rattle.ags_scale.specs.Change.{Tags};
ghost use Rattle.ags_scale.specs.Tagged.{AreTagsNext, KeepsScales};
ghost use Rattle.ags_scale.specs.declared.answers.Scaled.{Scaled};
ghost use Rattle.ags_scale.specs.declared.answers.Scaled.TheVariants.{Agree};

use ags_domain::Domain;

/// Where scales are accepted, and every run of the certificate is safe, no tagged run over a run from a start faults, and each of its
/// steps keeps what the tags tell.
pub fn accepted_scales_are_kept<D: Domain>()
    ensures { (machine : Machine) (image : List (Option ℕ)) (cert : Certificate D) (scales : Scaling) → IsMachine machine
        → AreScalesAccepted D.meaning machine image cert scales → Safe D.meaning machine image cert
        → KeepsScales D.meaning machine image cert scales }
{}

/// The answer is that the scales agree just where they are accepted.
pub fn accepted_scales_agree()
    ensures accepted { (machine : Machine) (image : List (Option ℕ)) (cert : Certificate Value) (scales : Scaling) (rows cases : ℕ)
        → IsScaled machine image cert scales (Agree rows cases) → AreScalesAccepted value_meaning machine image cert scales }
    ensures agree { (machine : Machine) (image : List (Option ℕ)) (cert : Certificate Value) (scales : Scaling) (answer : Scaled) → IsMachine machine
        → AreScalesAccepted value_meaning machine image cert scales → IsScaled machine image cert scales answer
        → (cases : ℕ) × (answer ≡ Agree (length cert.rows) cases) }
{}

/// For each certificate there is an answer to scales, and one alone.
pub fn scales_have_one_answer()
    ensures some { (machine : Machine) (image : List (Option ℕ)) (cert : Certificate Value) (scales : Scaling) → IsMachine machine → IsImage image
        → (answer : Scaled) × IsScaled machine image cert scales answer }
    ensures one { (machine : Machine) (image : List (Option ℕ)) (cert : Certificate Value) (scales : Scaling) (one other : Scaled) → IsMachine machine
        → IsScaled machine image cert scales one → IsScaled machine image cert scales other → one ≡ other }
{}

/// After each event the tags are one pair: there are some, and no others.
pub fn tags_after_an_event_are_one()
    ensures some { (machine : Machine) (scales : Scaling) (s : State) (event : Event) (before : Tags) → IsMachine machine
        → (after : Tags) × AreTagsNext machine scales s event before after }
    ensures one { (machine : Machine) (scales : Scaling) (s : State) (event : Event) (before one other : Tags)
        → AreTagsNext machine scales s event before one → AreTagsNext machine scales s event before other → one ≡ other }
{}
