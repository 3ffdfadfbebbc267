//! Laws of answers: what command lines and files come to.

ghost use Rattle.std.specs.Prelude.{◌≡◌, ◌++◌, ℕ, List};
ghost use Rattle.ags_plan.specs.Answer.{IsAnswer, TellsFiles};
ghost use Rattle.ags_plan.specs.Walk.{Told};
ghost use Rattle.ags_program.specs.Program.{plan_of, program};
ghost use Rattle.ags_program.specs.Text.{certified_word, verdict_line};
ghost use Rattle.ags_verdict.specs.declared.verdicts.Verdict.TheVariants.{Certified};

use crate::program::Ags;
use ags_plan::{command_lines_have_one_answer, each_command_line_has_an_answer};
use ags_program::Status;

/// A command line has an answer, whatever a shelf tells of files.
pub fn each_command_has_an_answer()
    ensures { (told : Told) (arguments : List (List ℕ))
        → (text : List ℕ) × (status : Status) × IsAnswer program told (plan_of arguments) text status }
{
    each_command_line_has_an_answer::<Ags>();
}

/// Where a shelf tells of each file that is fetched, a command line has one answer.
pub fn arguments_have_one_answer()
    ensures { (told : Told) (arguments : List (List ℕ)) (text other : List ℕ) (status ended : Status)
        → TellsFiles program told (plan_of arguments) → IsAnswer program told (plan_of arguments) text status
        → IsAnswer program told (plan_of arguments) other ended → (text ≡ other) × (status ≡ ended) }
{
    command_lines_have_one_answer::<Ags>();
}

/// The line of a certificate that is certified begins with the word of which `certified_line` of `ags_main` speaks.
pub fn certified_lines_begin_with_certified()
    ensures { (rows cases : ℕ) → (behind : List ℕ) × (verdict_line (Certified rows cases) ≡ certified_word ++ behind) }
{}
