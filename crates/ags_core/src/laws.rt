//! What the state that a machine begins in means, for the crates above. Each law is what a function that does nothing
//! ensures, so that it is proved with the crate. Behind each clause is a lemma of `proofs/StartLemmas`.

ghost use Rattle.std.specs.Prelude.{◌≡◌, ℕ, ◌<◌, List, Option};
ghost use Rattle.ags_ports.specs.declared.machines.Machine.{Machine};
ghost use Rattle.ags_ports.specs.State.{IsState, cell};
ghost use Rattle.ags_image.specs.Image.{IsImage, word_at};
ghost use Rattle.ags_core.specs.Core.{start_state};

/// A machine begins with the image's word in each cell, and 0 where the image has none, in a state of the machine.
pub fn machine_begins_with_its_image()
    ensures words { (machine : Machine) (image : List (Option ℕ)) (start address : ℕ)
        → cell (start_state machine image start) address ≡ word_at image address }
    ensures state { (machine : Machine) (image : List (Option ℕ)) (start : ℕ) → IsImage image → start < 4096
        → IsState machine (start_state machine image start) }
{}
