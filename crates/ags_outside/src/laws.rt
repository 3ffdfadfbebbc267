//! What the definitions mean. Each law is what a function that does nothing ensures, so that it is proved with the
//! crate. After it is a lemma of `specs/`, which the crates above cite.

ghost use Rattle.std.specs.Prelude.{ℕ, ◌≤◌};
ghost use Rattle.ags_outside.specs.Count.{Rose};

/// Over several calls a count rose where it rose in the last of them, and fell in none before.
pub fn a_later_rise_is_a_rise()
    ensures { (before mid now : ℕ) → before ≤ mid → Rose mid now → Rose before now }
{}
