//! The run of a script's lines, one after another.

ghost use Rattle.std.specs.Prelude.{length, map, OnOk, IfErr};
ghost use Rattle.ags_drive.specs.Act.{acts_of, acts_of_script};
ghost use Rattle.ags_benchscript.specs.Suiting.{Suits};
ghost use Rattle.ags_certtype.specs.Cert.{certificate_of};
ghost use Rattle.ags_outside.specs.Count.{HasCause};
ghost use Rattle.ags_drive.specs.Drive.{is_drive_fault};
ghost use Rattle.ags_drive.specs.Making.{Made, Unmade};
ghost use Rattle.ags_drive.specs.Standing.{IsBenchOf, bench_of};

use crate::benches::Bench;
use crate::commands::run_command;
use crate::drive_error::DriveError;
use crate::leaving::show_all_left;
use ags_benchscript::BenchScript;
use ags_certtype::Cert;
use ags_device::Device;
use ags_outside::Sink;
use ags_ports::Machine;

/// Runs the lines of a script from the state that a bench is in.
pub(crate) fn run_lines<K: Sink>(
    machine: &Machine,
    cert: &Cert,
    bench: &mut Bench,
    devices: &mut Vec<Box<dyn Device>>,
    positions: usize,
    script: &BenchScript,
    out: &mut K,
) -> Result<(), DriveError>
    requires fitted { IsBenchOf machine.now bench.old }
    requires suits { Suits machine.now script.now }
    ensures fitted { IsBenchOf machine.now bench.new }
    ensures made { OnOk result (Made machine.now (certificate_of cert.now) (acts_of positions script.now) (K.told out.old) (K.told out.new) bench.old bench.new (map record_of devices.old.items) (map record_of devices.new.items)) }
    ensures unmade { IfErr result (Unmade machine.now (certificate_of cert.now) (bench_of bench.old (map record_of devices.old.items)) (acts_of positions script.now) (K.told out.old) (K.told out.new) (map record_of devices.new.items)) }
    ensures faults { HasCause (K.faults out.old) (K.faults out.new) (is_drive_fault result) }
{
    bench.steps_fit();
    for position in 0..script.len() {
        let asked = script.nth(position);
        if let Err(error) = run_command(
            machine, cert, bench, devices, positions, asked.0, asked.1, out,
        ) {
            return Err(error);
        }
    }
    Ok(())
}

/// Runs a script: its lines, and then a line for each device that is left.
pub(crate) fn run_script<K: Sink>(
    machine: &Machine,
    cert: &Cert,
    bench: &mut Bench,
    devices: &mut Vec<Box<dyn Device>>,
    script: &BenchScript,
    out: &mut K,
) -> Result<(), DriveError>
    requires fitted { IsBenchOf machine.now bench.old }
    requires suits { Suits machine.now script.now }
    ensures made { OnOk result (Made machine.now (certificate_of cert.now) (acts_of_script (length (map record_of devices.old.items)) script.now) (K.told out.old) (K.told out.new) bench.old bench.new (map record_of devices.old.items) (map record_of devices.new.items)) }
    ensures unmade { IfErr result (Unmade machine.now (certificate_of cert.now) (bench_of bench.old (map record_of devices.old.items)) (acts_of_script (length (map record_of devices.old.items)) script.now) (K.told out.old) (K.told out.new) (map record_of devices.new.items)) }
    ensures faults { HasCause (K.faults out.old) (K.faults out.new) (is_drive_fault result) }
{
    let positions = devices.len();
    if let Err(error) = run_lines(machine, cert, bench, devices, positions, script, out) {
        return Err(error);
    }
    show_all_left(bench, devices, positions, out)
}
