//! A certificate judged, its verdict said, and, where it is certified, the script driven with the devices.

ghost use Rattle.std.specs.Prelude.{◌≡◌, ◌++◌, IfOk, OnOk, OnErr, map};
ghost use Rattle.std.specs.String.{string_bytes};
ghost use Rattle.ags_benchjudged.specs.Driving.{Benches, Runs, met_of};
ghost use Rattle.ags_benchjudged.specs.Met.{met_line};
ghost use Rattle.ags_benchscript.specs.Script.{IsReadFor};
ghost use Rattle.ags_outside.specs.Count.{HasCause};
ghost use Rattle.ags_outside.specs.Send.{is_write_fault};
ghost use Rattle.ags_outside.specs.Sink.{WroteFront, appended};

use ags_benchscript::BenchScript;
use ags_cert::Cert;
use ags_check::Verdict;
use ags_device::Device;
use ags_drive::{DriveError, drive};
use ags_image::Image;
use ags_outside::{SendError, Sink};
use ags_plan::send_line;
use ags_played::verdict_line;
use ags_ports::Machine;
use ags_program::{ReadPair, Status};
use ags_run::PlayError;
use std::alloc::{AllocError, Global};

/// The line of what a run met.
fn met_line(alloc: Global, error: DriveError) -> Result<String, AllocError>
    ensures { IfOk result (λ line. string_bytes line ≡ met_line (met_of error)) }
{
    match error {
        DriveError::StartOutside(outside) => {
            let outside = PlayError::StartOutside(outside);
            format!(in alloc; "{outside}\n")
        }
        DriveError::InputRange { address, word } => {
            let outside = PlayError::InputRange { address, word };
            format!(in alloc; "{outside}\n")
        }
        DriveError::NoDevice { line, device } => {
            format!(in alloc; "NODEVICE LINE {line} DEVICE {device}\n")
        }
        DriveError::NoFeed { line, device } => {
            format!(in alloc; "NOFEED LINE {line} DEVICE {device}\n")
        }
        DriveError::WriteFault => Ok(String::new(alloc)),
        DriveError::NoMemory => Ok(String::new(alloc)),
    }
}

/// Says what a run met.
fn say_met<K: Sink>(alloc: Global, error: DriveError, out: &mut K) -> Result<Status, SendError>
    ensures ended { IfOk result (λ status. status ≡ Status.No) }
    ensures sent { OnOk result (K.told out.new ≡ appended (K.told out.old) (met_line (met_of error))) }
    ensures front { OnErr result (WroteFront (K.told out.old) (K.told out.new) (met_line (met_of error))) }
    ensures faults { HasCause (K.faults out.old) (K.faults out.new) (is_write_fault result) }
{
    send_line(met_line(alloc, error), out).and(Ok(Status::No))
}

/// Drives a script with the devices, and says what its run met.
fn run_script<K: Sink>(
    alloc: Global,
    machine: &Machine,
    image: &Image,
    cert: &Cert,
    script: &BenchScript,
    devices: &mut Vec<Box<dyn Device>>,
    out: &mut K,
) -> Result<Status, SendError>
    requires { IsReadFor machine.now script.now }
    ensures runs { Runs machine.now image.now cert.now (map record_of devices.old.items) script.now (K.told out.old) (K.told out.new) (map record_of devices.new.items) result }
    ensures faults { HasCause (K.faults out.old) (K.faults out.new) (is_write_fault result) }
{
    match drive(machine, image, cert, script, devices, out) {
        Ok(_) => Ok(Status::Done),
        Err(error) => match error {
            DriveError::WriteFault => Err(SendError::WriteFault),
            DriveError::NoMemory => Err(SendError::NoMemory),
            DriveError::StartOutside(_) => say_met(alloc, error, out),
            DriveError::InputRange { .. } => say_met(alloc, error, out),
            DriveError::NoDevice { .. } => say_met(alloc, error, out),
            DriveError::NoFeed { .. } => say_met(alloc, error, out),
        },
    }
}

/// Says the verdict of a certificate for a source's words, and, where it is certified, drives a script on them with the devices
/// (docs/BENCH.md). The status is `No` where the verdict refuses, or the run meets a start or a word that the certificate doesn't declare,
/// a number that no device has, or a device that feeds no register. An error is a fault of the output, or want of memory.
pub fn drive_pair<K: Sink>(
    alloc: Global,
    pair: &ReadPair,
    verdict: &Verdict,
    script: &BenchScript,
    devices: &mut Vec<Box<dyn Device>>,
    out: &mut K,
) -> Result<Status, SendError>
    requires { IsReadFor pair.now.machine script.now }
    ensures benches { Benches pair.now.machine pair.now.source.made.image pair.now.cert (map record_of devices.old.items) script.now verdict.now
        (K.told out.old) (K.told out.new) (map record_of devices.new.items) result }
    ensures faults { HasCause (K.faults out.old) (K.faults out.new) (is_write_fault result) }
{
    send_line(verdict_line(alloc, verdict), out)?;
    match verdict {
        Verdict::Certified { .. } => run_script(
            alloc,
            &pair.machine,
            &pair.source.made.image,
            &pair.cert,
            script,
            devices,
            out,
        ),
        Verdict::Refused(_) => Ok(Status::No),
    }
}
