//! The run of a bench script.

ghost use Rattle.std.specs.Prelude.{◌<◌, List, None, length, map, IsErrOf};
ghost use Rattle.ags_drive.specs.Act.{Act, acts_of_script};
ghost use Rattle.ags_drive.specs.Bench.{start_bench};
ghost use Rattle.ags_drive.specs.Cut.{IsRunWhereCut, IsSafeWhereCut};
ghost use Rattle.ags_benchscript.specs.Script.{IsReadFor};
ghost use Rattle.ags_benchscript.specs.Suiting.{Suits};
ghost use Rattle.ags_certtype.specs.Cert.{certificate_of};
ghost use Rattle.ags_core.specs.Core.{start_state};
ghost use Rattle.ags_device.specs.Record.{DeviceRecord};
ghost use Rattle.ags_domain.specs.Value.{value_meaning};
ghost use Rattle.ags_image.specs.Image.{IsImage};
ghost use Rattle.ags_outside.specs.Count.{HasCause, Rose};
ghost use Rattle.ags_play.specs.Guard.{IsFirstOutside};
ghost use Rattle.ags_ports.specs.Machine.{IsMachine};
ghost use Rattle.ags_safe.specs.Safe.{Safe};
ghost use Rattle.ags_drive.specs.Drive.{Drives, is_drive_fault};

use crate::drive_error::DriveError;
use crate::laws::{bench_run_is_a_run_of_its_certificate, bench_run_is_safe};
use crate::script_run::run_script;
use crate::starting::begin;
use ags_benchscript::BenchScript;
use ags_benchscript::laws::scripts_suit_their_machine;
use ags_certtype::Cert;
use ags_device::Device;
use ags_image::Image;
use ags_outside::Sink;
use ags_ports::Machine;
use ags_ports::laws::machine_is_made_of_tables;

/// How many events a script made.
#[derive(Clone, Copy)]
pub struct Driven {
    /// The steps.
    pub steps: u64,
    /// The words that were put into input registers.
    pub puts: u64,
}

/// Does nothing: its contract tells the proofs what is so of a machine, an image, a certificate, and a script that was read for the
/// machine.
fn types_are_kept(machine: &Machine, image: &Image, cert: &Cert, script: &BenchScript)
    requires { IsReadFor machine.now script.now }
    ensures machine { IsMachine machine.now }
    ensures image { IsImage image.now }
    ensures location { (certificate_of cert.now).start < 4096 }
    ensures suits { Suits machine.now script.now }
{
    machine_is_made_of_tables(machine);
    scripts_suit_their_machine();
    let _ = image.get(0);
    let _ = cert.start();
}

/// Does nothing: its contract tells the proofs what is so of each bench run over an image and under a certificate.
fn runs_are_sound(machine: &Machine, image: &Image, cert: &Cert, script: &BenchScript)
    requires { IsReadFor machine.now script.now }
    ensures declared { (devices : List DeviceRecord) (acts : List Act)
        → IsFirstOutside machine.now image.now (certificate_of cert.now) (start_state machine.now image.now cert.now.start) None
        → IsRunWhereCut machine.now image.now (certificate_of cert.now) (start_bench machine.now image.now (certificate_of cert.now) devices) acts }
    ensures safe { (devices : List DeviceRecord) (acts : List Act)
        → IsFirstOutside machine.now image.now (certificate_of cert.now) (start_state machine.now image.now cert.now.start) None
        → Safe value_meaning machine.now image.now (certificate_of cert.now)
        → IsSafeWhereCut machine.now image.now (certificate_of cert.now) (start_bench machine.now image.now (certificate_of cert.now) devices) acts }
{
    types_are_kept(machine, image, cert, script);
    bench_run_is_a_run_of_its_certificate();
    bench_run_is_safe();
}

/// Runs a bench script that was read for the machine (docs/BENCH.md), on the machine that starts with an image, with devices at its
/// registers, under a certificate. The start must be one that it declares, and so must each word that a device gives before it is put.
/// What is shown is printed as soon as it is shown, a line each. Devices that leave are dropped; the others stand in the list
/// afterwards, whatever the answer.
pub fn drive<K: Sink>(
    machine: &Machine,
    image: &Image,
    cert: &Cert,
    script: &BenchScript,
    devices: &mut Vec<Box<dyn Device>>,
    out: &mut K,
) -> Result<Driven, DriveError>
    requires { IsReadFor machine.now script.now }
    // The script has one run over the image, under the certificate and with the devices: this is how far it came, with its text, its
    // counts, and the devices as they stand there.
    ensures driven { Drives machine.now image.now (certificate_of cert.now) (map record_of devices.old.items) script.now (K.told out.old) (K.told out.new) (map record_of devices.new.items) result }
    // Where the start is declared, the events up to each point of the run are those of a run from it, with each word that is put
    // declared.
    ensures declared { IsFirstOutside machine.now image.now (certificate_of cert.now) (start_state machine.now image.now cert.now.start) None
        → IsRunWhereCut machine.now image.now (certificate_of cert.now) (start_bench machine.now image.now (certificate_of cert.now) (map record_of devices.old.items))
        (acts_of_script (length (map record_of devices.old.items)) script.now) }
    // Where the certificate is safe too, each state that the run comes to is: so is each that is shown.
    ensures safe { IsFirstOutside machine.now image.now (certificate_of cert.now) (start_state machine.now image.now cert.now.start) None
        → Safe value_meaning machine.now image.now (certificate_of cert.now)
        → IsSafeWhereCut machine.now image.now (certificate_of cert.now) (start_bench machine.now image.now (certificate_of cert.now) (map record_of devices.old.items))
        (acts_of_script (length (map record_of devices.old.items)) script.now) }
    ensures write_fault { IsErrOf result DriveError.WriteFault → Rose (K.faults out.old) (K.faults out.new) }
    ensures faults { HasCause (K.faults out.old) (K.faults out.new) (is_drive_fault result) }
{
    types_are_kept(machine, image, cert, script);
    runs_are_sound(machine, image, cert, script);
    match begin(*devices.allocator(), machine, image, cert) {
        Ok(mut bench) => match run_script(machine, cert, &mut bench, devices, script, out) {
            Ok(()) => Ok(Driven {
                steps: bench.listener.steps,
                puts: bench.puts,
            }),
            Err(error) => Err(error),
        },
        Err(error) => Err(error),
    }
}
