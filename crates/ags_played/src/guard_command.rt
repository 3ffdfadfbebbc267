//! The command `guard`: what a script shows of the machine that begins with a source's words, under a certificate that is accepted
//! for them.

ghost use Rattle.std.specs.Prelude.{◌≡◌, ◌++◌, IfOk, OnOk, OnErr, codes};
ghost use Rattle.std.specs.String.{string_bytes};
ghost use Rattle.ags_cert.specs.Cert.{certificate_of};
ghost use Rattle.ags_domain.specs.Value.{value_meaning};
ghost use Rattle.ags_outside.specs.Count.{HasCause};
ghost use Rattle.ags_outside.specs.Send.{is_write_fault};
ghost use Rattle.ags_outside.specs.Sink.{WroteFront, appended};
ghost use Rattle.ags_plan.specs.Plan.{WorkAt};
ghost use Rattle.ags_plan.specs.Saying.{Says};
ghost use Rattle.ags_run.specs.ErrorText.{error_text};
ghost use Rattle.ags_script.specs.Script.{IsReadFor};
ghost use Rattle.ags_played.specs.Guarding.{Guards};
ghost use Rattle.ags_program.specs.Program.{program};
ghost use Rattle.ags_program.specs.Views.{IsReadSource, pair_of};
ghost use Rattle.ags_program.specs.Work as work;
ghost use Rattle.ags_verdict.specs.Verdict.{IsVerdict};

use crate::verdicts::verdict_line;
use ags_cert::Cert;
use ags_check::Verdict;
use ags_image::Image;
use ags_outside::{SendError, Sink};
use ags_plan::send_line;
use ags_ports::Machine;
use ags_ports::laws::machine_is_made_of_tables;
use ags_program::{ReadPair, Status};
use ags_run::{PlayError, play};
use ags_script::Script;
use std::alloc::{AllocError, Global};

/// The line of what a play met.
fn met_line(alloc: Global, error: PlayError) -> Result<String, AllocError>
    ensures { IfOk result (λ line. string_bytes line ≡ error_text error ++ codes "\n") }
{
    format!(in alloc; "{error}\n")
}

/// Says what a play met that its guard doesn't declare.
fn say_met<K: Sink>(alloc: Global, error: PlayError, out: &mut K) -> Result<Status, SendError>
    ensures ended { IfOk result (λ status. status ≡ Status.No) }
    ensures sent { OnOk result (K.told out.new ≡ appended (K.told out.old) (error_text error ++ codes "\n")) }
    ensures front { OnErr result (WroteFront (K.told out.old) (K.told out.new) (error_text error ++ codes "\n")) }
    ensures faults { HasCause (K.faults out.old) (K.faults out.new) (is_write_fault result) }
{
    send_line(met_line(alloc, error), out).and(Ok(Status::No))
}

/// Plays a script with a certificate as its guard, and says what the play met.
fn play_guarded<K: Sink>(
    alloc: Global,
    machine: &Machine,
    image: &Image,
    cert: &Cert,
    script: &Script,
    out: &mut K,
) -> Result<Status, SendError>
    requires { IsReadFor machine.now script.now }
    ensures guards { Guards machine.now image.now cert.now script.now (K.told out.old) (K.told out.new) result }
    ensures faults { HasCause (K.faults out.old) (K.faults out.new) (is_write_fault result) }
{
    match play(alloc, machine, image, script, Some(cert), out) {
        Ok(_) => Ok(Status::Done),
        Err(error) => match error {
            PlayError::WriteFault => Err(SendError::WriteFault),
            PlayError::NoMemory => Err(SendError::NoMemory),
            PlayError::StartOutside(_) => say_met(alloc, error, out),
            PlayError::InputRange { .. } => say_met(alloc, error, out),
        },
    }
}

/// Says the verdict of a certificate for a source's words, and, where it is certified, plays a script on them with the certificate as
/// its guard (the README, Commands). The status is `No` where the verdict refuses, or the play meets a start or a word that the certificate
/// doesn't declare. An error is a fault of the output, or want of memory.
pub fn guard_script<K: Sink>(
    alloc: Global,
    pair: &ReadPair,
    verdict: &Verdict,
    script: &Script,
    out: &mut K,
) -> Result<Status, SendError>
    requires source { IsReadSource pair.now.source }
    requires verdict { IsVerdict value_meaning pair.now.machine pair.now.source.made.image (certificate_of pair.now.cert) verdict.now }
    requires script { IsReadFor pair.now.machine script.now }
    ensures says { Says program (WorkAt (work.JudgePair (pair_of pair.now) (work.PlayBehind script.now))) (K.told out.old) (K.told out.new) result }
    ensures faults { HasCause (K.faults out.old) (K.faults out.new) (is_write_fault result) }
{
    let machine = &pair.machine;
    machine_is_made_of_tables(machine);
    send_line(verdict_line(alloc, verdict), out)?;
    match verdict {
        Verdict::Certified { .. } => {
            play_guarded(
                alloc,
                machine,
                &pair.source.made.image,
                &pair.cert,
                script,
                out,
            )
        }
        Verdict::Refused(_) => Ok(Status::No),
    }
}
