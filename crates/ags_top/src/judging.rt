//! The verdict of a certificate for a source's words, with what stands with it: one row for each command that judges.

ghost use Rattle.ags_cert.specs.Cert.{certificate_of};
ghost use Rattle.ags_domain.specs.Value.{value_meaning};
ghost use Rattle.ags_outside.specs.Count.{HasCause};
ghost use Rattle.ags_outside.specs.Send.{is_write_fault};
ghost use Rattle.ags_plan.specs.Plan.{WorkAt};
ghost use Rattle.ags_plan.specs.Saying.{Says};
ghost use Rattle.ags_program.specs.Program.{program};
ghost use Rattle.ags_program.specs.Views.{IsReadSource, IsSequelReady, pair_of, sequel_of};
ghost use Rattle.ags_program.specs.Work as work;
ghost use Rattle.ags_verdict.specs.Verdict.{IsVerdict};

use crate::budget_command::judge_budget;
use crate::certify_command::write_judged;
use crate::edits_command::tell_edits;
use crate::scales_command::judge_scales;
use crate::workload_command::write_counts;
use ags_check::Verdict;
use ags_outside::{SendError, Sink};
use ags_played::{guard_script, verdict_of};
use ags_program::{ReadPair, Sequel, Status};
use std::alloc::Global;

/// The verdict of a certificate for a source's words.
fn verdict_of_pair(pair: &ReadPair) -> Verdict
    ensures { IsVerdict value_meaning pair.now.machine pair.now.source.made.image (certificate_of pair.now.cert) result }
{
    verdict_of(&pair.machine, &pair.source.made.image, &pair.cert)
}

/// Judges a certificate for a source's words, and says the verdict and what stands with it.
pub(crate) fn judge_pair<K: Sink>(
    alloc: Global,
    pair: ReadPair,
    sequel: Sequel,
    out: &mut K,
) -> Result<Status, SendError>
    requires source { IsReadSource pair.source }
    requires sequel { IsSequelReady pair sequel }
    ensures says { Says program (WorkAt (work.JudgePair (pair_of pair) (sequel_of sequel))) (K.told out.old) (K.told out.new) result }
    ensures faults { HasCause (K.faults out.old) (K.faults out.new) (is_write_fault result) }
{
    match sequel {
        Sequel::ListingBefore => write_judged(alloc, &pair, &verdict_of_pair(&pair), out),
        Sequel::PlayBehind(script) => {
            guard_script(alloc, &pair, &verdict_of_pair(&pair), &script, out)
        }
        Sequel::CountsInstead(size) => {
            write_counts(alloc, &pair, &verdict_of_pair(&pair), size, out)
        }
        Sequel::BudgetBehind(budget) => {
            judge_budget(alloc, &pair, &verdict_of_pair(&pair), &budget, out)
        }
        Sequel::ScalesBehind(scales) => {
            judge_scales(alloc, &pair, &verdict_of_pair(&pair), &scales, out)
        }
        Sequel::EditsBehind(edits) => tell_edits(alloc, pair, edits, out),
    }
}
