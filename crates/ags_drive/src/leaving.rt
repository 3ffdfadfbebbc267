//! Devices that leave, and those that are left at the end, a line each.

ghost use Rattle.std.specs.Prelude.{◌≡◌, ◌<◌, ℕ, [], ◌∷◌, length, map, slice_get, OnOk, IfErr};
ghost use Rattle.ags_drive.specs.Act as act;
ghost use Rattle.ags_device.specs.Devices.{kept_of, plan_of};
ghost use Rattle.ags_device.specs.Record.{last_of};
ghost use Rattle.ags_domain.specs.declared.values.Value.{Value};
ghost use Rattle.ags_outside.specs.Count.{HasCause};
ghost use Rattle.ags_ports.specs.declared.machines.Machine.{Machine};
ghost use Rattle.ags_safe.specs.Certificate.{Certificate};
ghost use Rattle.ags_drive.specs.Drive.{is_drive_fault};
ghost use Rattle.ags_drive.specs.Making.{Made, Unmade};
ghost use Rattle.ags_drive.specs.Standing.{bench_of};

use crate::benches::Bench;
use crate::device_lines::{DeviceCounts, device_line};
use crate::drive_error::DriveError;
use crate::feeding::{find, is_there};
use crate::showing::send_line;
use ags_device::{Device, count_at, last_at, left_at, remove_at};
use ags_outside::Sink;

/// What the device at a position has left and has heard.
fn counts_at(devices: &Vec<Box<dyn Device>>, position: usize) -> DeviceCounts
    requires { position < length devices.now.items }
    ensures left { result.left ≡ length (plan_of (slice_get (map record_of devices.now.items) position)) }
    ensures heard { result.heard ≡ length (kept_of (slice_get (map record_of devices.now.items) position)) }
    ensures last { result.last ≡ last_of (kept_of (slice_get (map record_of devices.now.items) position)) }
{
    DeviceCounts {
        left: left_at(devices, position),
        heard: count_at(devices, position),
        last: last_at(devices, position),
    }
}

/// DETACH: the device with a number leaves, once its line was sent.
pub(crate) fn detach<K: Sink>(
    bench: &Bench,
    devices: &mut Vec<Box<dyn Device>>,
    line: u32,
    number: u32,
    out: &mut K,
) -> Result<(), DriveError>
    ensures made { OnOk result ((machine : Machine) (cert : Certificate Value)
        → Made machine cert (act.Detaches line number ∷ []) (K.told out.old) (K.told out.new) bench.now bench.now (map record_of devices.old.items) (map record_of devices.new.items)) }
    ensures unmade { IfErr result (λ error. (machine : Machine) (cert : Certificate Value)
        → Unmade machine cert (bench_of bench.now (map record_of devices.old.items)) (act.Detaches line number ∷ []) (K.told out.old) (K.told out.new) (map record_of devices.new.items) error) }
    ensures faults { HasCause (K.faults out.old) (K.faults out.new) (is_drive_fault result) }
{
    bench.steps_fit();
    let Some(position) = find(devices, number) else {
        return Err(DriveError::NoDevice {
            line,
            device: number,
        });
    };
    let Ok(text) = device_line(
        *devices.allocator(),
        "DETACHED ",
        number as usize,
        counts_at(devices, position),
    ) else {
        return Err(DriveError::NoMemory);
    };
    if let Err(error) = send_line(out, text.as_bytes()) {
        return Err(error);
    }
    remove_at(devices, position);
    Ok(())
}

/// The line at the end of the device at a position, where one is present.
fn show_left<K: Sink>(
    bench: &Bench,
    devices: &Vec<Box<dyn Device>>,
    position: usize,
    out: &mut K,
) -> Result<(), DriveError>
    ensures made { OnOk result ((machine : Machine) (cert : Certificate Value)
        → Made machine cert (act.ShowsDevice position ∷ []) (K.told out.old) (K.told out.new) bench.now bench.now (map record_of devices.now.items) (map record_of devices.now.items)) }
    ensures unmade { IfErr result (λ error. (machine : Machine) (cert : Certificate Value)
        → Unmade machine cert (bench_of bench.now (map record_of devices.now.items)) (act.ShowsDevice position ∷ []) (K.told out.old) (K.told out.new) (map record_of devices.now.items) error) }
    ensures faults { HasCause (K.faults out.old) (K.faults out.new) (is_drive_fault result) }
{
    bench.steps_fit();
    if position >= devices.len() {
        return Ok(());
    }
    is_there(devices, position);
    let Ok(text) = device_line(
        *devices.allocator(),
        "DEVICE ",
        position + 1,
        counts_at(devices, position),
    ) else {
        return Err(DriveError::NoMemory);
    };
    send_line(out, text.as_bytes())
}

/// The lines at the end, of the devices at so many positions.
pub(crate) fn show_all_left<K: Sink>(
    bench: &Bench,
    devices: &Vec<Box<dyn Device>>,
    positions: usize,
    out: &mut K,
) -> Result<(), DriveError>
    ensures made { OnOk result ((machine : Machine) (cert : Certificate Value)
        → Made machine cert (act.at_each act.ShowsDevice positions) (K.told out.old) (K.told out.new) bench.now bench.now (map record_of devices.now.items) (map record_of devices.now.items)) }
    ensures unmade { IfErr result (λ error. (machine : Machine) (cert : Certificate Value)
        → Unmade machine cert (bench_of bench.now (map record_of devices.now.items)) (act.at_each act.ShowsDevice positions) (K.told out.old) (K.told out.new) (map record_of devices.now.items) error) }
    ensures faults { HasCause (K.faults out.old) (K.faults out.new) (is_drive_fault result) }
{
    bench.steps_fit();
    for position in 0..positions {
        if let Err(error) = show_left(bench, devices, position, out) {
            return Err(error);
        }
    }
    Ok(())
}
