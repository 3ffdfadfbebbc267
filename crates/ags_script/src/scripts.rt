//! A script: its commands, or its first fault.

ghost use Rattle.std.specs.Prelude.{◌≡◌, ◌≤◌, ◌<◌, ◌^◌, ◌⊎◌, ℕ, List, Some, length, slice_get, IfOk, IfErr, IsOkAnd, IsErrOf};
ghost use Rattle.ags_script.specs.declared.commands.Command.{Command};
ghost use Rattle.ags_script.specs.declared.script_errors.ScriptKind.{ScriptKind};
ghost use Rattle.ags_script.specs.Script.{IsScript, IsFaultyScript, IsRefused};
ghost use Rattle.ags_script.specs.Limit.{script_limit};

use crate::commands::Command;
use crate::reader::Reader;
use crate::script_errors::ScriptError;
use ags_ports::Machine;
use ags_text::Lines;
use std::alloc::Global;
use std::marker::Model;

/// The most bytes of a script.
pub const SCRIPT_LIMIT: usize = 4_194_304;

/// A script that was read: the list of its commands.
#[derive(Drop)]
pub struct Script {
    commands: Vec<Command>,
}

impl Model for Script {
    ghost use Rattle.std.specs.Prelude.{List};
    ghost use Rattle.ags_script.specs.declared.commands.Command.{Command};

    ghost Value = { List Command };

    ghost view = { λ script. script.commands.items };
}

impl Script {
    /// How many commands it has.
    pub fn len(&self) -> usize
        ensures count { result ≡ length self.now }
        ensures most { length self.now < 2 ^ 63 }
    {
        self.commands.len()
    }

    /// The command at a position, counted from 0.
    pub fn nth(&self, position: usize) -> Command
        requires { position < length self.now }
        ensures { slice_get self.now position ≡ Some result }
    {
        self.commands[position]
    }
}

/// Reads the lines of a script, one after the other.
fn read_lines(alloc: Global, bytes: &[u8], machine: &Machine) -> Result<Script, ScriptError>
    requires { length bytes.now ≤ script_limit }
    ensures read { IfOk result (λ script. IsScript machine.now bytes.now script) }
    ensures refused { IfErr result (IsRefused machine.now bytes.now) }
{
    let mut reader = Reader::new(alloc);
    let mut number = 0u32;
    for line in Lines::of(bytes) {
        number += 1;
        reader.add_line(machine, number, line.bytes)?;
    }
    Ok(Script {
        commands: reader.commands,
    })
}

/// Reads a script of at most 4,194,304 bytes for a machine: the commands that its lines spell, in order, or its first
/// fault (docs/SCRIPT.md). A line's number counts every line, skipped ones too. On one line the fault of the least number
/// comes. `NoMemory` may come at any script, and says nothing of it.
pub fn read(alloc: Global, bytes: &[u8], machine: &Machine) -> Result<Script, ScriptError>
    requires { length bytes.now ≤ script_limit }
    // It is a script without a fault, and these are its commands; or its first fault is this one.
    ensures read { IfOk result (λ script. IsScript machine.now bytes.now script) }
    ensures refused { IfErr result (IsRefused machine.now bytes.now) }

    // A script without a fault is read, and one with a fault is refused for it, unless memory runs out.
    ensures faultless { (commands : List Command) → IsScript machine.now bytes.now commands
        → IsOkAnd result (λ script. script ≡ commands) ⊎ IsErrOf result ScriptError.NoMemory }
    ensures faulty { (line : ℕ) (kind : ScriptKind) → IsFaultyScript machine.now bytes.now line kind
        → IsErrOf result (ScriptError.At line kind) ⊎ IsErrOf result ScriptError.NoMemory }
{
    read_lines(alloc, bytes, machine)
}
