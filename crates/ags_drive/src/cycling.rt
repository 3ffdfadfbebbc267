//! Cycles of the timer.

ghost use Rattle.std.specs.Prelude.{◌≡◌, false, [], ◌∷◌, ◌++◌, map, OnOk, IfErr};
ghost use Rattle.ags_drive.specs.Act as act;
ghost use Rattle.ags_certtype.specs.Cert.{certificate_of};
ghost use Rattle.ags_drive.specs.Drive.{is_drive_fault};
ghost use Rattle.ags_drive.specs.Making.{SilentMade, SilentUnmade};
ghost use Rattle.ags_drive.specs.Standing.{IsBenchOf, bench_of};

use crate::benches::Bench;
use crate::drive_error::DriveError;
use crate::feeding::feed_in_cycle;
use crate::stepping::{pulse, run_cycle};
use ags_certtype::Cert;
use ags_device::Device;
use ags_ports::Machine;

/// The feeds of a cycle, at so many positions in order.
fn feed_all(
    machine: &Machine,
    cert: &Cert,
    bench: &mut Bench,
    devices: &mut Vec<Box<dyn Device>>,
    positions: usize,
) -> Result<(), DriveError>
    requires { IsBenchOf machine.now bench.old }
    ensures fitted { IsBenchOf machine.now bench.new }
    ensures made { OnOk result (SilentMade machine.now (certificate_of cert.now) (act.at_each act.FeedsInCycle positions) bench.old bench.new (map record_of devices.old.items) (map record_of devices.new.items)) }
    ensures unmade { IfErr result (SilentUnmade machine.now (certificate_of cert.now) (bench_of bench.old (map record_of devices.old.items)) (act.at_each act.FeedsInCycle positions) (map record_of devices.new.items)) }
    ensures no_fault { is_drive_fault result ≡ false }
{
    bench.steps_fit();
    for position in 0..positions {
        if let Err(error) = feed_in_cycle(machine, cert, bench, devices, position) {
            return Err(error);
        }
    }
    Ok(())
}

/// One cycle: its feeds, a pulse, and steps for its time.
fn run_one(
    machine: &Machine,
    cert: &Cert,
    bench: &mut Bench,
    devices: &mut Vec<Box<dyn Device>>,
    positions: usize,
) -> Result<(), DriveError>
    requires { IsBenchOf machine.now bench.old }
    ensures fitted { IsBenchOf machine.now bench.new }
    ensures made { OnOk result (SilentMade machine.now (certificate_of cert.now) (act.at_each act.FeedsInCycle positions ++ act.Pulses ∷ act.RunsCycle ∷ []) bench.old bench.new (map record_of devices.old.items) (map record_of devices.new.items)) }
    ensures unmade { IfErr result (SilentUnmade machine.now (certificate_of cert.now) (bench_of bench.old (map record_of devices.old.items)) (act.at_each act.FeedsInCycle positions ++ act.Pulses ∷ act.RunsCycle ∷ []) (map record_of devices.new.items)) }
    ensures no_fault { is_drive_fault result ≡ false }
{
    if let Err(error) = feed_all(machine, cert, bench, devices, positions) {
        return Err(error);
    }
    pulse(machine, bench);
    run_cycle(machine, bench, devices)
}

/// So many cycles.
pub(crate) fn run_cycles(
    machine: &Machine,
    cert: &Cert,
    bench: &mut Bench,
    devices: &mut Vec<Box<dyn Device>>,
    positions: usize,
    count: u32,
) -> Result<(), DriveError>
    requires { IsBenchOf machine.now bench.old }
    ensures fitted { IsBenchOf machine.now bench.new }
    ensures made { OnOk result (SilentMade machine.now (certificate_of cert.now) (act.cycles positions count) bench.old bench.new (map record_of devices.old.items) (map record_of devices.new.items)) }
    ensures unmade { IfErr result (SilentUnmade machine.now (certificate_of cert.now) (bench_of bench.old (map record_of devices.old.items)) (act.cycles positions count) (map record_of devices.new.items)) }
    ensures no_fault { is_drive_fault result ≡ false }
{
    bench.steps_fit();
    for _ in 0..count {
        if let Err(error) = run_one(machine, cert, bench, devices, positions) {
            return Err(error);
        }
    }
    Ok(())
}
