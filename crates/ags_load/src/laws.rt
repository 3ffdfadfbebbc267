//! Laws of the workload's texts.

ghost use Rattle.std.specs.Prelude.{ℕ, ◌≤◌, length};
ghost use Rattle.ags_load.specs.Workload.{cert_text, source_text};

/// The source of a workload is within the limit of sources: no read of it says that it is too long.
pub fn source_is_within_its_limit()
    ensures { (n : ℕ) → n ≤ 400 → length (source_text n) ≤ 4194304 }
{}

/// The certificate of a workload is within the limit of certificates.
pub fn cert_is_within_its_limit()
    ensures { (n : ℕ) → n ≤ 400 → length (cert_text n) ≤ 67108864 }
{}
