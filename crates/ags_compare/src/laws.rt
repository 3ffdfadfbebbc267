//! What a comparison says of two images, over all images. Behind each clause is a lemma of `proofs/ComparisonLemmas`.

ghost use Rattle.std.specs.Prelude.{◌≡◌, ℕ, List, Option};
ghost use Rattle.ags_image.specs.Image.{IsImage};
ghost use Rattle.ags_compare.specs.Comparison.{IsComparison};
ghost use Rattle.ags_compare.specs.declared.comparing.Compared.{Compared};
ghost use Rattle.ags_compare.specs.declared.comparing.Compared.TheVariants.{Equal};

/// Two images compare in some way, and in one, and as equal exactly where they are one image.
pub fn images_compare_in_one_way()
    ensures some { (left right : List (Option ℕ)) → (answer : Compared) × IsComparison left right answer }
    ensures one { (left right : List (Option ℕ)) (answer other : Compared) → IsComparison left right answer
        → IsComparison left right other → answer ≡ other }
    ensures equal { (left right : List (Option ℕ)) → IsImage left → IsImage right → IsComparison left right Equal → left ≡ right }
    ensures same { (image : List (Option ℕ)) → IsComparison image image Equal }
{}
