//! Steps, pulses, and the steps of a cycle, of which the devices hear.

ghost use Rattle.std.specs.Prelude.{◌≡◌, false, List, [], ◌∷◌, map, replicate, OnOk, IfErr};
ghost use Rattle.ags_drive.specs.Act as act;
ghost use Rattle.ags_device.specs.Record.{DeviceRecord};
ghost use Rattle.ags_domain.specs.declared.values.Value.{Value};
ghost use Rattle.ags_safe.specs.Certificate.{Certificate};
ghost use Rattle.ags_drive.specs.Drive.{is_drive_fault};
ghost use Rattle.ags_drive.specs.Making.{ActMade, SilentMade, SilentUnmade};
ghost use Rattle.ags_drive.specs.Standing.{IsBenchOf, bench_of};

use crate::benches::Bench;
use crate::drive_error::DriveError;
use crate::hearing::{hear_gave, hear_words};
use ags_device::Device;
use ags_ports::{Event, Machine};
use ags_run::carry_in;
use ags_timed::{CYCLE_MICROS, run_for};

/// One step: the devices hear the word that its order gave, where it gave one.
fn make_step(
    machine: &Machine,
    bench: &mut Bench,
    devices: &mut Vec<Box<dyn Device>>,
) -> Result<(), DriveError>
    requires { IsBenchOf machine.now bench.old }
    ensures fitted { IsBenchOf machine.now bench.new }
    ensures made { OnOk result ((cert : Certificate Value) → ActMade machine.now cert act.MakesStep bench.old bench.new (map record_of devices.old.items) (map record_of devices.new.items)) }
    ensures unmade { IfErr result (λ error. (cert : Certificate Value)
        → SilentUnmade machine.now cert (bench_of bench.old (map record_of devices.old.items)) (act.MakesStep ∷ []) (map record_of devices.new.items) error) }
    ensures no_fault { is_drive_fault result ≡ false }
{
    let report = bench.core.act(machine, Event::Step);
    bench.listener.steps = bench.listener.steps.wrapping_add(1);
    match hear_gave(machine, devices, report.gave) {
        Ok(()) => Ok(()),
        Err(_) => Err(DriveError::NoMemory),
    }
}

/// So many steps.
pub(crate) fn make_steps(
    machine: &Machine,
    bench: &mut Bench,
    devices: &mut Vec<Box<dyn Device>>,
    count: u32,
) -> Result<(), DriveError>
    requires { IsBenchOf machine.now bench.old }
    ensures fitted { IsBenchOf machine.now bench.new }
    ensures made { OnOk result ((cert : Certificate Value)
        → SilentMade machine.now cert (replicate count act.MakesStep) bench.old bench.new (map record_of devices.old.items) (map record_of devices.new.items)) }
    ensures unmade { IfErr result (λ error. (cert : Certificate Value)
        → SilentUnmade machine.now cert (bench_of bench.old (map record_of devices.old.items)) (replicate count act.MakesStep) (map record_of devices.new.items) error) }
    ensures no_fault { is_drive_fault result ≡ false }
{
    bench.steps_fit();
    for _ in 0..count {
        if let Err(error) = make_step(machine, bench, devices) {
            return Err(error);
        }
    }
    Ok(())
}

/// The steps of a cycle: the devices hear the words that its orders gave, in order, once the steps are made.
pub(crate) fn run_cycle(
    machine: &Machine,
    bench: &mut Bench,
    devices: &mut Vec<Box<dyn Device>>,
) -> Result<(), DriveError>
    requires { IsBenchOf machine.now bench.old }
    ensures fitted { IsBenchOf machine.now bench.new }
    ensures made { OnOk result ((cert : Certificate Value) → ActMade machine.now cert act.RunsCycle bench.old bench.new (map record_of devices.old.items) (map record_of devices.new.items)) }
    ensures unmade { IfErr result (λ error. (cert : Certificate Value)
        → SilentUnmade machine.now cert (bench_of bench.old (map record_of devices.old.items)) (act.RunsCycle ∷ []) (map record_of devices.new.items) error) }
    ensures no_fault { is_drive_fault result ≡ false }
{
    bench.steps_fit();
    bench.listener.given.clear();
    let had = CYCLE_MICROS - bench.carry;
    let spent = run_for(&mut bench.core, machine, had, &mut bench.listener);
    if bench.listener.starved {
        return Err(DriveError::NoMemory);
    }
    if let Err(_) = hear_words(machine, devices, bench.listener.given.as_slice()) {
        return Err(DriveError::NoMemory);
    }
    bench.carry = carry_in(bench.core.phase(), had, spent);
    Ok(())
}

/// A pulse of the timer.
pub(crate) fn pulse(machine: &Machine, bench: &mut Bench)
    requires { IsBenchOf machine.now bench.old }
    ensures fitted { IsBenchOf machine.now bench.new }
    ensures made { (cert : Certificate Value) (devices : List DeviceRecord) → ActMade machine.now cert act.Pulses bench.old bench.new devices devices }
{
    bench.steps_fit();
    bench.core.act(machine, Event::Pulse);
}
