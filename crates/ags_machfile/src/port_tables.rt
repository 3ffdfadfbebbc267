//! The registers of each direction.

ghost use Rattle.std.specs.Prelude.{◌≡◌, ◌<◌, ◌≤◌, length, map, codes, option_map, [], Ok, Err, IfOk, IfErr, IfSome, Some};
ghost use Rattle.toml.specs.Data.{get_member, as_table};
ghost use Rattle.toml.specs.View.{view, table_view};
ghost use Rattle.ags_ports.specs.Port.{AreRegisters};
ghost use Rattle.ags_machfile.specs.Value.{address_given};
ghost use Rattle.ags_machfile.specs.PortTable.{direction_key, entry_key, once_given, port_with, entry_port, ports_behind, ports_in, registers_in, standard_ports};

use crate::keys::Key;
use crate::mach_error::MachError;
use crate::values::{address_given, value_at};
use ags_ports::{MOST_REGISTERS, Port, Ports, has_register};
use arrayvec::ArrayVec;
use toml::{Table, Value};

/// The registers of one direction.
type PortList = ArrayVec<Port, MOST_REGISTERS>;

/// A direction of registers.
#[derive(Clone, Copy)]
pub(crate) enum Direction {
    /// Those that INP reads.
    Input,
    /// Those that OUT sets.
    Output,
}

/// The registers of a document, and in a direction that it doesn't give the standard ones.
pub(crate) fn registers_in(document: &Table) -> Result<Ports, MachError>
    ensures { result ≡ registers_in (table_view document.now) }
{
    let inputs = Direction::Input.ports_in(document, "input")?;
    let outputs = Direction::Output.ports_in(document, "output")?;
    Ok(Ports::of(inputs.as_slice(), outputs.as_slice()).unwrap())
}

impl Direction {
    /// The key of the direction's registers.
    fn key(self) -> Key
        ensures { result ≡ direction_key self }
    {
        match self {
            Direction::Input => Key::Input,
            Direction::Output => Key::Output,
        }
    }

    /// The key of an entry, by its position.
    fn entry_key(self, position: usize) -> Key
        requires { position < 32 }
        ensures { result ≡ entry_key self position }
    {
        match self {
            Direction::Input => Key::InputAt(position as u32),
            Direction::Output => Key::OutputAt(position as u32),
        }
    }

    /// The registers at a key of a document, and the standard ones where none stand there.
    fn ports_in(self, document: &Table, key: &str) -> Result<PortList, MachError>
        ensures ports { IfOk result (λ ports. ports_in self (get_member key.now (table_view document.now)) ≡ Ok ports.items) }
        ensures registers { IfOk result (λ ports. AreRegisters ports.items) }
        ensures fault { IfErr result (λ fault. ports_in self (get_member key.now (table_view document.now)) ≡ Err fault) }
    {
        match value_at(document, key) {
            Some(value) => self.ports_of(value),
            None => Ok(self.standard_ports()),
        }
    }

    /// The standard machine's registers.
    fn standard_ports(self) -> PortList
        ensures ports { result.items ≡ standard_ports self }
        ensures registers { AreRegisters result.items }
    {
        let standard = Ports::standard();
        let ports = match self {
            Direction::Input => standard.inputs(),
            Direction::Output => standard.outputs(),
        };
        let mut list: PortList = ArrayVec::new();
        let _ = list.try_extend_from_slice(ports);
        list
    }

    /// The registers that a value is.
    fn ports_of(self, value: &Value) -> Result<PortList, MachError>
        ensures ports { IfOk result (λ ports. ports_in self (Some (view value.now)) ≡ Ok ports.items) }
        ensures registers { IfOk result (λ ports. AreRegisters ports.items) }
        ensures fault { IfErr result (λ fault. ports_in self (Some (view value.now)) ≡ Err fault) }
    {
        let Some(array) = value.as_array() else {
            return Err(MachError::BadValue { which: self.key() });
        };
        if array.len() > MOST_REGISTERS {
            return Err(MachError::BadValue { which: self.key() });
        }
        self.ports_listed(array.as_slice())
    }

    /// The registers of entries.
    fn ports_listed(self, entries: &[Value]) -> Result<PortList, MachError>
        requires { length entries.now ≤ 32 }
        ensures ports { IfOk result (λ ports. ports_behind self [] (map view entries.now) ≡ Ok ports.items) }
        ensures registers { IfOk result (λ ports. AreRegisters ports.items) }
        ensures fault { IfErr result (λ fault. ports_behind self [] (map view entries.now) ≡ Err fault) }
    {
        let mut ports: PortList = ArrayVec::new();
        for entry in entries {
            let port = self.entry_port(ports.len(), entry)?;
            if has_register(ports.as_slice(), port.address) {
                return Err(MachError::SamePort {
                    address: port.address,
                });
            }
            ports.push(port);
        }
        Ok(ports)
    }

    /// The register of the entry at a position.
    fn entry_port(self, position: usize, entry: &Value) -> Result<Port, MachError>
        requires { position < 32 }
        ensures port { result ≡ entry_port self position (as_table (view entry.now)) }
        ensures below { IfOk result (λ port. port.address < 4096) }
    {
        let which = self.entry_key(position);
        let Some(entry) = entry.as_table() else {
            return Err(MachError::BadValue { which });
        };
        port_with(which, address_at(entry), self.once_given(entry))
    }

    /// Whether an entry's register holds its word once, and nothing where its value is wrong.
    fn once_given(self, entry: &Table) -> Option<bool>
        ensures { result ≡ once_given self (table_view entry.now) }
    {
        match self {
            Direction::Input => match value_at(entry, "once") {
                Some(value) => value.as_bool(),
                None => Some(false),
            },
            Direction::Output => Some(false),
        }
    }
}

/// The address of an entry, where one stands there, and nothing in its place where the value is wrong.
fn address_at(entry: &Table) -> Option<Option<u16>>
    ensures address { result ≡ option_map address_given (get_member (codes "address") (table_view entry.now)) }
    ensures below { IfSome result (λ address. IfSome address (λ address. address < 4096)) }
{
    match value_at(entry, "address") {
        Some(value) => Some(address_given(value)),
        None => None,
    }
}

/// The register of an address and of whether it holds its word once, or which of these is wrong or missing.
fn port_with(
    which: Key,
    address: Option<Option<u16>>,
    once: Option<bool>,
) -> Result<Port, MachError>
    requires { IfSome address (λ address. IfSome address (λ address. address < 4096)) }
    ensures port { result ≡ port_with which address once }
    ensures below { IfOk result (λ port. port.address < 4096) }
{
    match (address, once) {
        (Some(None), _) | (_, None) => Err(MachError::BadValue { which }),
        (None, Some(_)) => Err(MachError::MissingKey { which }),
        (Some(Some(address)), Some(once)) => Ok(Port { address, once }),
    }
}
