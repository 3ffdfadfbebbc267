//! What the verdict means. Each law is what a function that does nothing ensures, so that it is proved with the crate.

ghost use Rattle.std.specs.Prelude.{◌≡◌, ◌≢◌, ℕ, Bool, true, List, length, Option, Result};
ghost use Rattle.std.specs.List.{AllPairs, Contains};
ghost use Rattle.ags_domain.specs.declared.word_sets.WordSet.{WordSet};
ghost use Rattle.ags_ports.specs.Machine.{IsMachine};
ghost use Rattle.ags_row.specs.declared.rows.Row.{Row};
ghost use Rattle.ags_safe.specs.Certificate.{Certificate};
ghost use Rattle.ags_safe.specs.Accepted.{Accepted};
ghost use Rattle.ags_safe.specs.Failing.{Precedes};
ghost use Rattle.ags_verdict.specs.RowCase.{RowCase, IsCaseOf, numbers_of, cases_in};
ghost use Rattle.ags_verdict.specs.Verdict.{IsVerdict};
ghost use Rattle.ags_verdict.specs.Flat.{IsNumberOfCases, IsFirstFailing};
ghost use Rattle.ags_verdict.specs.Fault.{IsRowJudged};
ghost use Rattle.ags_verdict.specs.Locality.{HasPostAt, DifferAtAlone};
ghost use Rattle.ags_verdict.specs.declared.verdicts.RowFault.{RowFault};
ghost use Rattle.ags_verdict.specs.declared.verdicts.Verdict.{Verdict};
ghost use Rattle.ags_verdict.specs.declared.verdicts.Verdict.TheVariants.{Certified, Refused};
ghost use Rattle.ags_verdict.specs.declared.verdicts.Refusal.{Refusal};

use ags_domain::Domain;
use ags_ports::Machine;

/// Just the accepted certificates are certified, with the number of their rows and of their cases; and one that is refused is not
/// accepted.
pub fn accepted_certificates_are_certified<D: Domain>()
    ensures certified { (machine : Machine) (image : List (Option ℕ)) (cert : Certificate D) → Accepted D.meaning machine image cert
        → (cases : ℕ) × IsVerdict D.meaning machine image cert (Certified (length cert.rows) cases) }
    ensures accepted { (machine : Machine) (image : List (Option ℕ)) (cert : Certificate D) (rows cases : ℕ)
        → IsVerdict D.meaning machine image cert (Certified rows cases) → Accepted D.meaning machine image cert }
    ensures counted { (machine : Machine) (image : List (Option ℕ)) (cert : Certificate D) (rows cases : ℕ)
        → IsVerdict D.meaning machine image cert (Certified rows cases)
        → (rows ≡ length cert.rows) × IsNumberOfCases D.meaning image cert.limits cert.rows cases }
    ensures refused { (machine : Machine) (image : List (Option ℕ)) (cert : Certificate D) (refusal : Refusal D) → IsMachine machine
        → IsVerdict D.meaning machine image cert (Refused refusal) → ¬ Accepted D.meaning machine image cert }
{}

/// A certificate has one verdict.
pub fn certificate_has_one_verdict<D: Domain>()
    ensures { (machine : Machine) (image : List (Option ℕ)) (cert : Certificate D) (one other : Verdict D) → IsMachine machine
        → IsVerdict D.meaning machine image cert one → IsVerdict D.meaning machine image cert other → one ≡ other }
{}

/// The cases of a row are each word of its code with each index and each indicator of the row, and no others. Each stands among them
/// once, in the order of words, indices and indicators.
pub fn cases_are_each_word_with_each_index_and_indicator<D: Domain>()
    ensures each { (row : Row D) (code : WordSet) (c : RowCase) → IsCaseOf row code.list c → Contains (cases_in row code.list) c }
    ensures alone { (row : Row D) (code : WordSet) (c : RowCase) → Contains (cases_in row code.list) c → IsCaseOf row code.list c }
    ensures once { (row : Row D) (code : WordSet) → AllPairs (λ one other. one ≢ other) (cases_in row code.list) }
    ensures ascending { (row : Row D) (code : WordSet)
        → AllPairs (λ one other. Precedes (numbers_of one) (numbers_of other)) (cases_in row code.list) }
{}

/// A refusal tells the first item that fails, in the order of the first words, the start, and the rows with their cases.
pub fn refusal_tells_what_fails_first<D: Domain>()
    ensures { (machine : Machine) (image : List (Option ℕ)) (cert : Certificate D) (refusal : Refusal D)
        → IsVerdict D.meaning machine image cert (Refused refusal) → IsFirstFailing D.meaning machine image cert refusal }
{}

/// A row is judged by the rows at the locations to which its posts go alone: where the rows of a certificate differ at other locations
/// alone, the same comes of it.
pub fn row_is_judged_by_the_rows_that_its_posts_go_to<D: Domain>()
    ensures { (machine : Machine) (image : List (Option ℕ)) (cert : Certificate D) (at : ℕ → Bool) (one other : List (Row D)) (row : Row D)
        (outcome : Result ℕ (RowFault D)) → DifferAtAlone (λ location. at location ≡ true) one other
        → ((location : ℕ) → at location ≡ true → ¬ HasPostAt D.meaning machine image cert.limits row location)
        → IsRowJudged D.meaning (record cert { rows = one }) machine image row outcome
        → IsRowJudged D.meaning (record cert { rows = other }) machine image row outcome }
{}
