//! The input and output registers of a machine.

ghost use Rattle.std.specs.Prelude.{◌≡◌, ◌≢◌, ◌<◌, ◌≤◌, ◌↔◌, ◌==◌, IsTrue, All, Any, AllPairs, length, take, slice_get, IfSome, Some, None, false};
ghost use Rattle.std.specs.List.{list_any};
ghost use Rattle.ags_ports.specs.Port.{AreRegisters, position_of, is_once, standard_inputs, standard_outputs};

use ags_word::LOCATIONS;
use std::marker::Model;

/// How many registers there are at most in one direction.
pub const MOST_REGISTERS: usize = 32;

/// A register.
#[derive(Clone, Copy, Default)]
pub struct Port {
    /// Its address.
    pub address: u16,
    /// Whether it holds its word once: read by INP, it then holds 0. It matters for an input register alone.
    pub once: bool,
}

/// The registers of one direction, in place.
#[derive(Drop)]
struct PortTable {
    /// The registers, and further ones after them.
    ports: [Port; MOST_REGISTERS],
    /// How many of them are the direction's.
    count: usize,
}

/// A machine's registers in each direction: at most 32, at distinct addresses below 4096.
#[derive(Drop)]
pub struct Ports {
    inputs: PortTable,
    outputs: PortTable,
}

impl Model for Ports {
    ghost use Rattle.std.specs.Prelude.{◌≤◌, take};
    ghost use Rattle.ags_ports.specs.Port.{Registers, AreRegisters};

    ghost Value = { Registers };

    ghost view = { λ ports. record { inputs = take ports.inputs.count ports.inputs.ports; outputs = take ports.outputs.count ports.outputs.ports } };

    ghost invariant = { λ ports. (AreRegisters (take ports.inputs.count ports.inputs.ports) × (ports.inputs.count ≤ 32))
        × (AreRegisters (take ports.outputs.count ports.outputs.ports) × (ports.outputs.count ≤ 32)) };
}

impl PortTable {
    /// A table of some registers.
    fn of(ports: &[Port]) -> PortTable
        requires { length ports.now ≤ 32 }
        ensures held { take result.count result.ports ≡ ports.now }
        ensures few { result.count ≤ 32 }
    {
        let mut table = [held_port(0); MOST_REGISTERS];
        table[..ports.len()].copy_from_slice(ports);
        PortTable {
            ports: table,
            count: ports.len(),
        }
    }

    /// Its registers in order.
    fn as_slice(&self) -> &[Port]
        requires { self.now.count ≤ 32 }
        ensures { result.now ≡ take self.now.count self.now.ports }
    {
        &self.ports[..self.count]
    }
}

impl Ports {
    /// The registers of two tables, and nothing where one of them has more than 32 entries, an address above 4095, or
    /// one address twice.
    pub fn of(inputs: &[Port], outputs: &[Port]) -> Option<Ports>
        ensures some { AreRegisters inputs.now → AreRegisters outputs.now
            → result ≡ Some (record { inputs = inputs.now; outputs = outputs.now }) }
        ensures bad_inputs { ¬ AreRegisters inputs.now → result ≡ None }
        ensures bad_outputs { ¬ AreRegisters outputs.now → result ≡ None }
        ensures input_table { IfSome result (λ ports. AreRegisters ports.inputs) }
        ensures output_table { IfSome result (λ ports. AreRegisters ports.outputs) }
    {
        if are_registers(inputs) && are_registers(outputs) {
            Some(Ports {
                inputs: PortTable::of(inputs),
                outputs: PortTable::of(outputs),
            })
        } else {
            None
        }
    }

    /// The registers of the standard machine.
    pub fn standard() -> Ports
        ensures inputs { result.inputs ≡ standard_inputs }
        ensures outputs { result.outputs ≡ standard_outputs }
        ensures input_table { AreRegisters result.inputs }
        ensures output_table { AreRegisters result.outputs }
    {
        Ports {
            inputs: PortTable::of(&[
                held_port(0o2001),
                held_port(0o2002),
                held_port(0o2004),
                held_port(0o2010),
                held_port(0o2020),
                held_port(0o2040),
                Port {
                    address: 0o2200,
                    once: true,
                },
            ]),
            outputs: PortTable::of(&[
                held_port(0o6001),
                held_port(0o6002),
                held_port(0o6004),
                held_port(0o6010),
                held_port(0o6020),
                held_port(0o6040),
                held_port(0o6200),
            ]),
        }
    }

    /// A copy.
    pub fn copy(&self) -> Ports
        ensures { result ≡ self.now }
    {
        Ports {
            inputs: PortTable::of(self.inputs()),
            outputs: PortTable::of(self.outputs()),
        }
    }

    /// The input registers.
    pub fn inputs(&self) -> &[Port]
        ensures same { result.now ≡ self.now.inputs }
        ensures registers { AreRegisters self.now.inputs }
    {
        self.inputs.as_slice()
    }

    /// The output registers.
    pub fn outputs(&self) -> &[Port]
        ensures same { result.now ≡ self.now.outputs }
        ensures registers { AreRegisters self.now.outputs }
    {
        self.outputs.as_slice()
    }

    /// The position of the input register at an address.
    pub fn find_input(&self, address: u16) -> Option<usize>
        ensures position { result ≡ position_of self.now.inputs address }
        ensures in_range { IfSome result (λ position. position < length self.now.inputs) }
    {
        position_at(self.inputs.as_slice(), address)
    }

    /// Whether the input register at a position holds its word once.
    pub fn is_once(&self, position: usize) -> bool
        requires { position < length self.now.inputs }
        ensures { result ≡ is_once (slice_get self.now.inputs position) }
    {
        self.inputs.as_slice()[position].once
    }

    /// The position of the output register at an address.
    pub fn find_output(&self, address: u16) -> Option<usize>
        ensures position { result ≡ position_of self.now.outputs address }
        ensures in_range { IfSome result (λ position. position < length self.now.outputs) }
    {
        position_at(self.outputs.as_slice(), address)
    }
}

/// The position of the register at an address.
fn position_at(ports: &[Port], address: u16) -> Option<usize>
    ensures { result ≡ position_of ports.now address }
{
    ports.iter().position(|port| port.address == address)
}

/// A register that holds its word.
fn held_port(address: u16) -> Port
    ensures { result ≡ record { address = address; once = false } }
{
    Port {
        address,
        once: false,
    }
}

/// Whether a list is a table of one direction.
fn are_registers(ports: &[Port]) -> bool
    ensures { IsTrue result ↔ AreRegisters ports.now }
{
    ports.len() <= MOST_REGISTERS && all_below(ports) && all_distinct(ports)
}

/// Each address is below 4096.
fn all_below(ports: &[Port]) -> bool
    ensures { IsTrue result ↔ All (λ port. port.address < 4096) ports.now }
{
    ports.iter().all(|port| port.address < LOCATIONS)
}

/// No two addresses are equal.
fn all_distinct(ports: &[Port]) -> bool
    ensures { IsTrue result ↔ AllPairs (λ one another. one.address ≢ another.address) ports.now }
{
    for (position, port) in ports.iter().enumerate() {
        if has_register(&ports[..position], port.address) {
            return false;
        }
    }
    true
}

/// Whether one of the registers stands at an address.
pub fn has_register(ports: &[Port], address: u16) -> bool
    ensures same { result ≡ list_any (λ port. port.address == address) ports.now }
    ensures some { IsTrue result ↔ Any (λ port. port.address ≡ address) ports.now }
{
    ports.iter().any(|port| port.address == address)
}
