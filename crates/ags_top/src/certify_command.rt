//! The command `certify`: a source's listing, and the verdict of a certificate for its words.

ghost use Rattle.ags_cert.specs.Cert.{certificate_of};
ghost use Rattle.ags_domain.specs.Value.{value_meaning};
ghost use Rattle.ags_outside.specs.Count.{HasCause};
ghost use Rattle.ags_outside.specs.Send.{is_write_fault};
ghost use Rattle.ags_plan.specs.Plan.{WorkAt};
ghost use Rattle.ags_plan.specs.Saying.{Says};
ghost use Rattle.ags_program.specs.Program.{program};
ghost use Rattle.ags_program.specs.Views.{IsReadSource, pair_of};
ghost use Rattle.ags_program.specs.Work as work;
ghost use Rattle.ags_verdict.specs.Verdict.{IsVerdict};

use ags_check::Verdict;
use ags_listing::send_listing;
use ags_outside::{SendError, Sink};
use ags_plan::send_line;
use ags_played::{verdict_line, verdict_status};
use ags_program::{ReadPair, Status};
use std::alloc::Global;

/// Writes the listing of a source, and the verdict of a certificate for its words.
pub(crate) fn write_judged<K: Sink>(
    alloc: Global,
    pair: &ReadPair,
    verdict: &Verdict,
    out: &mut K,
) -> Result<Status, SendError>
    requires source { IsReadSource pair.now.source }
    requires verdict { IsVerdict value_meaning pair.now.machine pair.now.source.made.image (certificate_of pair.now.cert) verdict.now }
    ensures says { Says program (WorkAt (work.JudgePair (pair_of pair.now) work.ListingBefore)) (K.told out.old) (K.told out.new) result }
    ensures faults { HasCause (K.faults out.old) (K.faults out.new) (is_write_fault result) }
{
    send_listing(alloc, &pair.source.bytes, &pair.source.made, out)?;
    send_line(verdict_line(alloc, verdict), out).and(Ok(verdict_status(verdict)))
}
