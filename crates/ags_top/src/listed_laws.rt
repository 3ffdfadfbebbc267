//! What a reader of a certified listing may take from it. Behind each clause is a lemma of `proofs/ListedLemmas`.

ghost use Rattle.std.specs.Prelude.{◌≡◌, ◌≤◌, ℕ, List, Some};
ghost use Rattle.ags_cert.specs.Cert.{certificate_of};
ghost use Rattle.ags_domain.specs.Value.{value_meaning};
ghost use Rattle.ags_image.specs.Image.{entry_at};
ghost use Rattle.ags_listing.specs.Listing.{listing};
ghost use Rattle.ags_listing.specs.Reads.{Reads};
ghost use Rattle.ags_ports.specs.declared.events.Event.{Event};
ghost use Rattle.ags_ports.specs.Run.{AreEvents, AtEach, Moment, Run};
ghost use Rattle.ags_ports.specs.State.{State};
ghost use Rattle.ags_safe.specs.Safe.{HasRowAt};
ghost use Rattle.ags_safe.specs.Start.{AreDeclared, IsStart};
ghost use Rattle.ags_top.specs.Listed.{IsOrder, RunsWhatStands};
ghost use Rattle.ags_top.specs.Outcome.{IsCertifiedOn};

use ags_ports::Machine;

/// A certified listing is what runs. Its lines read back as the image that is certified: so each order that a run executes in
/// fixed memory stands in a line of the listing at its place, but for a word 000000 where no line has one; and each line whose
/// place has a row of the certificate, in fixed memory, is an order, of which `Safe` says how it runs.
pub fn certified_listing_is_what_runs()
    ensures reads { (machine : Machine) (source certificate text : List ℕ) → (is : IsCertifiedOn machine source certificate text)
        → Reads (listing source is.defined) is.image }
    ensures runs { (machine : Machine) (source certificate text : List ℕ) → (is : IsCertifiedOn machine source certificate text)
        → (s : State) (events : List Event) (moments : List Moment) → IsStart value_meaning machine is.image (certificate_of is.cert) s
        → AreEvents events → AreDeclared value_meaning machine (certificate_of is.cert) events → Run machine s events moments
        → AtEach (RunsWhatStands is.image) moments }
    ensures orders { (machine : Machine) (source certificate text : List ℕ) → (is : IsCertifiedOn machine source certificate text)
        → (place word : ℕ) → 2048 ≤ place → HasRowAt (certificate_of is.cert) place → entry_at is.image place ≡ Some word
        → IsOrder machine word }
{}
