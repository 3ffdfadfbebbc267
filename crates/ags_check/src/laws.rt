//! What the definitions of the check mean. Each law is what a function that does nothing ensures, so that it is proved with the crate.

ghost use Rattle.std.specs.Prelude.{◌≡◌, ◌↔◌, ℕ, ⊤, List, Option};
ghost use Rattle.ags_domain.specs.Value.{value_meaning};
ghost use Rattle.ags_domain.specs.declared.values.Value.{Value};
ghost use Rattle.ags_image.specs.Image.{IsImage};
ghost use Rattle.ags_row.specs.Limit.{Limiting};
ghost use Rattle.ags_row.specs.declared.posts.Post.{Post};
ghost use Rattle.ags_row.specs.declared.rows.Row.{Row};
ghost use Rattle.ags_safe.specs.Certificate.{Certificate};
ghost use Rattle.ags_safe.specs.Accepted.{IsCovered};
ghost use Rattle.ags_verdict.specs.Flat.{IsNumberOfCases};
ghost use Rattle.ags_verdict.specs.Counting.{HaveCases};
ghost use Rattle.ags_check.specs.Finding.{IsCoveredBy};

use crate::answer_laws::each_row_has_a_code;

/// The rows of each certificate have one number of cases; where each row has a code, it is the number that the verdict tells.
pub fn rows_have_one_number_of_cases()
    ensures some { (image : List (Option ℕ)) (limits : Limiting Value) (rows : List (Row Value)) → IsImage image
        → (cases : ℕ) × HaveCases value_meaning image limits rows cases }
    ensures one { (image : List (Option ℕ)) (limits : Limiting Value) (rows : List (Row Value)) (one other : ℕ)
        → HaveCases value_meaning image limits rows one → HaveCases value_meaning image limits rows other → one ≡ other }
    ensures told { (image : List (Option ℕ)) (limits : Limiting Value) (rows : List (Row Value)) (cases : ℕ)
        → IsNumberOfCases value_meaning image limits rows cases → HaveCases value_meaning image limits rows cases }
{
    each_row_has_a_code();
}

/// A post is covered where it is covered by a row of whose number nothing further is asked.
pub fn cover_asks_nothing_of_a_number()
    ensures { (cert : Certificate Value) (base : Row Value) (post : Post Value)
        → IsCoveredBy value_meaning cert (λ number. ⊤) base post ↔ IsCovered value_meaning cert base post }
{}
