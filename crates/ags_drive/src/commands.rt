//! The run of one line's command.

ghost use Rattle.std.specs.Prelude.{map, OnOk, IfErr};
ghost use Rattle.ags_drive.specs.Act.{acts_of_command};
ghost use Rattle.ags_benchscript.specs.Suiting.{NamesLocation};
ghost use Rattle.ags_certtype.specs.Cert.{certificate_of};
ghost use Rattle.ags_outside.specs.Count.{HasCause};
ghost use Rattle.ags_drive.specs.Drive.{is_drive_fault};
ghost use Rattle.ags_drive.specs.Making.{Made, Unmade};
ghost use Rattle.ags_drive.specs.Standing.{IsBenchOf, bench_of};

use crate::benches::Bench;
use crate::cycling::run_cycles;
use crate::drive_error::DriveError;
use crate::feeding::feed;
use crate::leaving::detach;
use crate::showing::{show_cell, show_out, show_reg};
use crate::stepping::{make_steps, pulse};
use ags_benchscript::BenchCommand;
use ags_certtype::Cert;
use ags_device::Device;
use ags_outside::Sink;
use ags_ports::Machine;

/// Runs a line's command, over as many positions as devices were handed in: makes its acts, and prints what they show.
pub(crate) fn run_command<K: Sink>(
    machine: &Machine,
    cert: &Cert,
    bench: &mut Bench,
    devices: &mut Vec<Box<dyn Device>>,
    positions: usize,
    line: u32,
    command: BenchCommand,
    out: &mut K,
) -> Result<(), DriveError>
    requires fitted { IsBenchOf machine.now bench.old }
    requires located { NamesLocation command }
    ensures fitted { IsBenchOf machine.now bench.new }
    ensures made { OnOk result (Made machine.now (certificate_of cert.now) (acts_of_command positions line command) (K.told out.old) (K.told out.new) bench.old bench.new (map record_of devices.old.items) (map record_of devices.new.items)) }
    ensures unmade { IfErr result (Unmade machine.now (certificate_of cert.now) (bench_of bench.old (map record_of devices.old.items)) (acts_of_command positions line command) (K.told out.old) (K.told out.new) (map record_of devices.new.items)) }
    ensures faults { HasCause (K.faults out.old) (K.faults out.new) (is_drive_fault result) }
{
    match command {
        BenchCommand::Step(count) => make_steps(machine, bench, devices, count),
        BenchCommand::Pulse => {
            pulse(machine, bench);
            Ok(())
        }
        BenchCommand::Cycle(count) => run_cycles(machine, cert, bench, devices, positions, count),
        BenchCommand::ShowReg => show_reg(bench, out),
        BenchCommand::ShowCell(address) => show_cell(bench, address, out),
        BenchCommand::ShowOut(address) => show_out(machine, bench, address, out),
        BenchCommand::Feed(number) => feed(machine, cert, bench, devices, line, number),
        BenchCommand::Detach(number) => detach(bench, devices, line, number, out),
    }
}
