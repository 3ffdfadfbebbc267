//! That there is an answer. Each law is what a function that does nothing ensures, so that it is proved with the crate. Machines and
//! images are the valid ones, as each one that a program holds is; of limits and rows nothing is asked.

ghost use Rattle.std.specs.Prelude.{◌≡◌, ℕ, ◌<◌, ◌^◌, List, Option};
ghost use Rattle.ags_domain.specs.Value.{value_meaning};
ghost use Rattle.ags_domain.specs.declared.values.Value.{Value};
ghost use Rattle.ags_domain.specs.declared.word_sets.WordSet.{WordSet};
ghost use Rattle.ags_image.specs.Image.{IsImage};
ghost use Rattle.ags_ports.specs.declared.machines.Machine.{Machine};
ghost use Rattle.ags_ports.specs.Machine.{IsMachine};
ghost use Rattle.ags_row.specs.Limit.{Limiting};
ghost use Rattle.ags_row.specs.declared.rows.Row.{Row};
ghost use Rattle.ags_safe.specs.Case.{Case, IsCode};
ghost use Rattle.ags_safe.specs.Posts.{Outcome, IsPostsOfCase};
ghost use Rattle.ags_safe.specs.Certificate.{Certificate};
ghost use Rattle.ags_safe.specs.Failing.{Fault, IsFirstFault, AreAnswered};
ghost use Rattle.ags_verdict.specs.Verdict.{IsVerdict};
ghost use Rattle.ags_verdict.specs.declared.verdicts.Refusal.{Refusal};
ghost use Rattle.ags_verdict.specs.declared.verdicts.Verdict.{Verdict};
ghost use Rattle.ags_verdict.specs.declared.verdicts.Verdict.TheVariants.{Refused};
ghost use Rattle.ags_check.specs.Told.{refusal_of_fault};

/// Each case has posts or a stop, where its word is one of the machine: below 2^18.
pub fn each_case_has_an_answer()
    ensures { (c : Case Value) → IsMachine c.machine → IsImage c.image → c.word < 2 ^ 18
        → (outcome : Outcome Value) × IsPostsOfCase value_meaning c outcome }
{}

/// Each row has a code, or its words are too many.
pub fn each_row_has_a_code()
    ensures { (image : List (Option ℕ)) (limits : Limiting Value) (row : Row Value) → IsImage image
        → (code : Option WordSet) × IsCode value_meaning image limits row code }
{}

/// Each certificate has a verdict.
pub fn each_certificate_has_a_verdict()
    ensures { (machine : Machine) (image : List (Option ℕ)) (cert : Certificate Value) → IsMachine machine → IsImage image
        → (verdict : Verdict Value) × IsVerdict value_meaning machine image cert verdict }
{}

/// The words of each row are known or are too many, and each case has posts or a reason why it has none. So a certificate over values
/// of which no item fails is accepted.
pub fn each_certificate_is_answered()
    ensures { (machine : Machine) (image : List (Option ℕ)) (cert : Certificate Value) → IsMachine machine → IsImage image
        → AreAnswered value_meaning machine image cert }
{}

/// A refusal tells the fault of the first item that fails; and where an item fails first, the verdict is the refusal that tells its
/// fault.
pub fn refusal_tells_the_first_fault()
    ensures fault { (machine : Machine) (image : List (Option ℕ)) (cert : Certificate Value) (refusal : Refusal Value)
        → IsMachine machine → IsVerdict value_meaning machine image cert (Refused refusal)
        → (fault : Fault Value) × IsFirstFault value_meaning machine image cert fault × (refusal ≡ refusal_of_fault fault) }
    ensures told { (machine : Machine) (image : List (Option ℕ)) (cert : Certificate Value) (fault : Fault Value)
        → IsMachine machine → IsImage image → IsFirstFault value_meaning machine image cert fault
        → IsVerdict value_meaning machine image cert (Refused (refusal_of_fault fault)) }
{}
