//! A machine file as a whole.

ghost use Rattle.std.specs.Prelude.{◌≡◌, ◌≤◌, length, IfOk, IfErr, Ok, Err};
ghost use Rattle.toml.specs.View.{table_view};
ghost use Rattle.ags_ports.specs.Machine.{IsMachine};
ghost use Rattle.ags_machfile.specs.MachineFile.{machine_in, machine_of, IsRefused};
ghost use Rattle.ags_machfile.specs.Limit.{machine_limit};

use crate::code_tables::codes_in;
use crate::keys::Key;
use crate::mach_error::MachError;
use crate::port_tables::registers_in;
use crate::time_tables::times_in;
use crate::values::address_in;
use ags_ports::Machine;
use ags_ports::laws::machine_is_made_of_tables;
use std::alloc::Global;
use toml::Table;

/// How many bytes a machine file has at most.
pub const MACHINE_LIMIT: usize = 65_536;

/// The machine of a file of at most 65,536 bytes, or the first test that it fails (docs/MACHINE.md, Machine files). Codes,
/// times, registers and addresses that the file doesn't give are those of the standard machine. `NoMemory` may come at
/// any file, and says nothing of it.
pub fn read(alloc: Global, bytes: &[u8]) -> Result<Machine, MachError>
    requires { length bytes.now ≤ machine_limit }
    ensures ready { IfOk result (λ machine. machine_of bytes.now ≡ Ok machine) }
    ensures tables { IfOk result IsMachine }
    ensures refused { IfErr result (IsRefused bytes.now) }
{
    match toml::table_from_slice(alloc, bytes) {
        Ok(document) => machine_in(&document),
        Err(error) if error.is_memory() => Err(MachError::NoMemory),
        Err(_) => Err(MachError::NotToml),
    }
}

/// The machine of a document.
fn machine_in(document: &Table) -> Result<Machine, MachError>
    ensures machine { result ≡ machine_in (table_view document.now) }
    ensures tables { IfOk result IsMachine }
{
    let usual = Machine::standard();
    let machine = Machine {
        codes: codes_in(document)?,
        times: times_in(document)?,
        ports: registers_in(document)?,
        deda_in: address_in(document, "deda_in", Key::DedaIn, usual.deda_in)?,
        deda_out: address_in(document, "deda_out", Key::DedaOut, usual.deda_out)?,
    };
    machine_is_made_of_tables(&machine);
    Ok(machine)
}
