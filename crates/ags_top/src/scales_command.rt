//! The command `scales`: the verdict of a certificate for a source's words, and, where it is certified, what comes of scales for it. They
//! are judged with a counter of their own, of which no command tells.

ghost use Rattle.std.specs.Prelude.{◌≡◌, ◌<◌, IfOk, length};
ghost use Rattle.std.specs.String.{string_bytes};
ghost use Rattle.ags_scale.specs.Scaled.{IsScaled};
ghost use Rattle.ags_cert.specs.Cert.{certificate_of};
ghost use Rattle.ags_domain.specs.Value.{value_meaning};
ghost use Rattle.ags_outside.specs.Count.{HasCause};
ghost use Rattle.ags_outside.specs.Send.{is_write_fault};
ghost use Rattle.ags_plan.specs.Plan.{WorkAt};
ghost use Rattle.ags_plan.specs.Saying.{Says};
ghost use Rattle.ags_program.specs.Program.{program};
ghost use Rattle.ags_program.specs.Text.{scaled_line};
ghost use Rattle.ags_program.specs.Views.{IsReadSource, pair_of};
ghost use Rattle.ags_program.specs.Work as work;
ghost use Rattle.ags_verdict.specs.Verdict.{IsVerdict};

use crate::sending::send_verdict_and;
use ags_cert::Cert;
use ags_check::Verdict;
use ags_image::Image;
use ags_outside::{SendError, Sink};
use ags_ports::Machine;
use ags_program::{ReadPair, Status};
use ags_scale::{Scaled, Scales, judge};
use ags_steps::Steps;
use std::alloc::{AllocError, Global};
use std::marker::Brand;
use std::sync::ledger::{Blank, Ledger};

/// What comes of scales, with a counter on the ledger of a blank.
fn scaled_from<L: Ledger>(
    machine: &Machine,
    image: &Image,
    cert: &Cert,
    scales: &Scales,
    blank: Blank,
) -> Scaled
    requires rows { length scales.now.rows ≡ length cert.now.rows }
    requires name { blank.name ≡ L.name }
    requires parts { blank.parts ≡ L.parts }
    requires some { 0 < L.parts }
    ensures { IsScaled machine.now image.now (certificate_of cert.now) scales.now result }
{
    let mut steps = Steps::<L>::new(blank);
    judge(machine, image, cert, scales, &mut steps)
}

/// What comes of scales.
fn scaled_of(machine: &Machine, image: &Image, cert: &Cert, scales: &Scales) -> Scaled
    requires { length scales.now.rows ≡ length cert.now.rows }
    ensures { IsScaled machine.now image.now (certificate_of cert.now) scales.now result }
{
    scaled_from::<Brand>(machine, image, cert, scales, Blank::new(1))
}

/// The line of what comes of scales, which is empty where the certificate isn't certified.
fn scaled_line(alloc: Global, answer: &Scaled) -> Result<String, AllocError>
    ensures { IfOk result (λ line. string_bytes line ≡ scaled_line answer.now) }
{
    match answer {
        Scaled::Unsafe(_) => Ok(String::new(alloc)),
        _ => format!(in alloc; "{answer}\n"),
    }
}

/// The status of what comes of scales.
fn scaled_status(answer: &Scaled) -> Status
    ensures { result ≡ work.scaled_status answer.now }
{
    match answer {
        Scaled::Agree { .. } => Status::Done,
        _ => Status::No,
    }
}

/// Says the verdict of a certificate for a source's words, and, where it is certified, what comes of the scales.
pub(crate) fn judge_scales<K: Sink>(
    alloc: Global,
    pair: &ReadPair,
    verdict: &Verdict,
    scales: &Scales,
    out: &mut K,
) -> Result<Status, SendError>
    requires source { IsReadSource pair.now.source }
    requires verdict { IsVerdict value_meaning pair.now.machine pair.now.source.made.image (certificate_of pair.now.cert) verdict.now }
    requires rows { length scales.now.rows ≡ length pair.now.cert.rows }
    ensures says { Says program (WorkAt (work.JudgePair (pair_of pair.now) (work.ScalesBehind scales.now))) (K.told out.old) (K.told out.new) result }
    ensures faults { HasCause (K.faults out.old) (K.faults out.new) (is_write_fault result) }
{
    let answer = scaled_of(&pair.machine, &pair.source.made.image, &pair.cert, scales);
    let line = scaled_line(alloc, &answer);
    send_verdict_and(alloc, verdict, line, out).and(Ok(scaled_status(&answer)))
}
