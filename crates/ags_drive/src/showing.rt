//! What is shown of the machine: a line, sent with its line feed.

ghost use Rattle.std.specs.Prelude.{◌≡◌, ◌<◌, List, [], ◌∷◌, length, OnOk, IfErr};
ghost use Rattle.ags_drive.specs.Act as act;
ghost use Rattle.ags_device.specs.Record.{DeviceRecord};
ghost use Rattle.ags_domain.specs.declared.values.Value.{Value};
ghost use Rattle.ags_outside.specs.Count.{HasCause};
ghost use Rattle.ags_outside.specs.Sink.{appended};
ghost use Rattle.ags_ports.specs.declared.machines.Machine.{Machine};
ghost use Rattle.ags_safe.specs.Certificate.{Certificate};
ghost use Rattle.ags_drive.specs.Drive.{is_drive_fault};
ghost use Rattle.ags_drive.specs.Making.{IsFrontSent, Made, Unmade};
ghost use Rattle.ags_drive.specs.Standing.{bench_of};

use crate::benches::Bench;
use crate::drive_error::DriveError;
use ags_outside::{SendError, Sink, send};
use ags_ports::Machine;
use ags_run::{cell_line, output_at, output_line, reg_line, whole_line};

/// Sends a line that has its line feed, as one piece.
pub(crate) fn send_line<K: Sink>(out: &mut K, line: &[u8]) -> Result<(), DriveError>
    ensures sent { OnOk result (K.told out.new ≡ appended (K.told out.old) line.now) }
    ensures front { IfErr result (IsFrontSent (K.told out.old) (K.told out.new) line.now) }
    ensures faults { HasCause (K.faults out.old) (K.faults out.new) (is_drive_fault result) }
{
    match send(out, line) {
        Ok(()) => Ok(()),
        Err(SendError::WriteFault) => Err(DriveError::WriteFault),
        Err(SendError::NoMemory) => Err(DriveError::NoMemory),
    }
}

/// Shows the processor's registers.
pub(crate) fn show_reg<K: Sink>(bench: &Bench, out: &mut K) -> Result<(), DriveError>
    ensures made { OnOk result ((machine : Machine) (cert : Certificate Value) (devices : List DeviceRecord)
        → Made machine cert (act.ShowsReg ∷ []) (K.told out.old) (K.told out.new) bench.now bench.now devices devices) }
    ensures unmade { IfErr result (λ error. (machine : Machine) (cert : Certificate Value) (devices : List DeviceRecord)
        → Unmade machine cert (bench_of bench.now devices) (act.ShowsReg ∷ []) (K.told out.old) (K.told out.new) devices error) }
    ensures faults { HasCause (K.faults out.old) (K.faults out.new) (is_drive_fault result) }
{
    bench.steps_fit();
    let line = whole_line(&reg_line(&bench.core));
    send_line(out, line.as_slice())
}

/// Shows the cell at an address.
pub(crate) fn show_cell<K: Sink>(bench: &Bench, address: u16, out: &mut K) -> Result<(), DriveError>
    requires { address < 4096 }
    ensures made { OnOk result ((machine : Machine) (cert : Certificate Value) (devices : List DeviceRecord)
        → Made machine cert (act.ShowsCell address ∷ []) (K.told out.old) (K.told out.new) bench.now bench.now devices devices) }
    ensures unmade { IfErr result (λ error. (machine : Machine) (cert : Certificate Value) (devices : List DeviceRecord)
        → Unmade machine cert (bench_of bench.now devices) (act.ShowsCell address ∷ []) (K.told out.old) (K.told out.new) devices error) }
    ensures faults { HasCause (K.faults out.old) (K.faults out.new) (is_drive_fault result) }
{
    bench.steps_fit();
    let line = whole_line(&cell_line(address, bench.core.cell(address)));
    send_line(out, line.as_slice())
}

/// Shows the output register at an address.
pub(crate) fn show_out<K: Sink>(
    machine: &Machine,
    bench: &Bench,
    address: u16,
    out: &mut K,
) -> Result<(), DriveError>
    requires address { address < 4096 }
    requires outputs { length bench.now.core.outputs ≡ length machine.now.ports.outputs }
    ensures made { OnOk result ((cert : Certificate Value) (devices : List DeviceRecord)
        → Made machine.now cert (act.ShowsOut address ∷ []) (K.told out.old) (K.told out.new) bench.now bench.now devices devices) }
    ensures unmade { IfErr result (λ error. (cert : Certificate Value) (devices : List DeviceRecord)
        → Unmade machine.now cert (bench_of bench.now devices) (act.ShowsOut address ∷ []) (K.told out.old) (K.told out.new) devices error) }
    ensures faults { HasCause (K.faults out.old) (K.faults out.new) (is_drive_fault result) }
{
    bench.steps_fit();
    let line = whole_line(&output_line(address, output_at(machine, &bench.core, address)));
    send_line(out, line.as_slice())
}
