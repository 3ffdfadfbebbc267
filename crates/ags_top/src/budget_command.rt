//! The command `budget`: the verdict of a certificate for a source's words, and, where it is certified, what comes of the bounds of its
//! rows on order time. The bounds are judged with a counter of their own, of which no command tells.

ghost use Rattle.std.specs.Prelude.{◌≡◌, ◌<◌, IfOk, length};
ghost use Rattle.std.specs.String.{string_bytes};
ghost use Rattle.ags_budget.specs.Timed.{IsTimed};
ghost use Rattle.ags_cert.specs.Cert.{certificate_of};
ghost use Rattle.ags_domain.specs.Value.{value_meaning};
ghost use Rattle.ags_outside.specs.Count.{HasCause};
ghost use Rattle.ags_outside.specs.Send.{is_write_fault};
ghost use Rattle.ags_plan.specs.Plan.{WorkAt};
ghost use Rattle.ags_plan.specs.Saying.{Says};
ghost use Rattle.ags_program.specs.Program.{program};
ghost use Rattle.ags_program.specs.Text.{timed_line};
ghost use Rattle.ags_program.specs.Views.{IsReadSource, pair_of};
ghost use Rattle.ags_program.specs.Work as work;
ghost use Rattle.ags_verdict.specs.Verdict.{IsVerdict};

use crate::sending::send_verdict_and;
use ags_budget::{Budget, Timed, judge};
use ags_cert::Cert;
use ags_check::Verdict;
use ags_image::Image;
use ags_outside::{SendError, Sink};
use ags_ports::Machine;
use ags_program::{ReadPair, Status};
use ags_steps::Steps;
use std::alloc::{AllocError, Global};
use std::marker::Brand;
use std::sync::ledger::{Blank, Ledger};

/// What comes of a budget, with a counter on the ledger of a blank.
fn timed_from<L: Ledger>(
    machine: &Machine,
    image: &Image,
    cert: &Cert,
    budget: &Budget,
    blank: Blank,
) -> Timed
    requires rows { length budget.now ≡ length cert.now.rows }
    requires name { blank.name ≡ L.name }
    requires parts { blank.parts ≡ L.parts }
    requires some { 0 < L.parts }
    ensures { IsTimed machine.now image.now (certificate_of cert.now) budget.now result }
{
    let mut steps = Steps::<L>::new(blank);
    judge(machine, image, cert, budget, &mut steps)
}

/// What comes of a budget.
fn timed_of(machine: &Machine, image: &Image, cert: &Cert, budget: &Budget) -> Timed
    requires { length budget.now ≡ length cert.now.rows }
    ensures { IsTimed machine.now image.now (certificate_of cert.now) budget.now result }
{
    timed_from::<Brand>(machine, image, cert, budget, Blank::new(1))
}

/// The line of what comes of a budget, which is empty where the certificate isn't certified.
fn timed_line(alloc: Global, timed: &Timed) -> Result<String, AllocError>
    ensures { IfOk result (λ line. string_bytes line ≡ timed_line timed.now) }
{
    match timed {
        Timed::Unsafe(_) => Ok(String::new(alloc)),
        _ => format!(in alloc; "{timed}\n"),
    }
}

/// The status of what comes of a budget.
fn timed_status(timed: &Timed) -> Status
    ensures { result ≡ work.timed_status timed.now }
{
    match timed {
        Timed::Within { .. } => Status::Done,
        Timed::Over { .. } => Status::No,
        Timed::Unsafe(_) => Status::No,
    }
}

/// Says the verdict of a certificate for a source's words, and, where it is certified, what comes of the bounds of its rows.
pub(crate) fn judge_budget<K: Sink>(
    alloc: Global,
    pair: &ReadPair,
    verdict: &Verdict,
    budget: &Budget,
    out: &mut K,
) -> Result<Status, SendError>
    requires source { IsReadSource pair.now.source }
    requires verdict { IsVerdict value_meaning pair.now.machine pair.now.source.made.image (certificate_of pair.now.cert) verdict.now }
    requires rows { length budget.now ≡ length pair.now.cert.rows }
    ensures says { Says program (WorkAt (work.JudgePair (pair_of pair.now) (work.BudgetBehind budget.now))) (K.told out.old) (K.told out.new) result }
    ensures faults { HasCause (K.faults out.old) (K.faults out.new) (is_write_fault result) }
{
    let timed = timed_of(&pair.machine, &pair.source.made.image, &pair.cert, budget);
    let line = timed_line(alloc, &timed);
    send_verdict_and(alloc, verdict, line, out).and(Ok(timed_status(&timed)))
}
