//! A bench script: its commands, or its first fault.

ghost use Rattle.std.specs.Prelude.{◌≡◌, ◌≤◌, ◌<◌, ◌^◌, ◌⊎◌, ℕ, List, Some, length, slice_get, IfOk, IfErr, IsOkAnd, IsErrOf};
ghost use Rattle.ags_script.specs.declared.script_errors.ScriptKind.{ScriptKind};
ghost use Rattle.ags_script.specs.Limit.{script_limit};
ghost use Rattle.ags_benchscript.specs.declared.commands.BenchCommand.{BenchCommand};
ghost use Rattle.ags_benchscript.specs.Script.{IsScript, IsFaultyScript, IsRefused};

use crate::commands::BenchCommand;
use crate::reader::Reader;
use ags_ports::Machine;
use ags_script::ScriptError;
use ags_text::Lines;
use std::alloc::Global;
use std::marker::Model;

/// A bench script that was read: the list of its lines' commands, each with its line's number.
#[derive(Drop)]
pub struct BenchScript {
    asked: Vec<(u32, BenchCommand)>,
}

impl Model for BenchScript {
    ghost use Rattle.std.specs.Prelude.{List, ℕ};
    ghost use Rattle.ags_benchscript.specs.declared.commands.BenchCommand.{BenchCommand};

    ghost Value = { List (ℕ × BenchCommand) };

    ghost view = { λ script. script.asked.items };
}

impl BenchScript {
    /// How many commands it has.
    pub fn len(&self) -> usize
        ensures count { result ≡ length self.now }
        ensures most { length self.now < 2 ^ 63 }
    {
        self.asked.len()
    }

    /// The command at a position, counted from 0, with its line's number.
    pub fn nth(&self, position: usize) -> (u32, BenchCommand)
        requires { position < length self.now }
        ensures { slice_get self.now position ≡ Some result }
    {
        self.asked[position]
    }
}

/// Reads the lines of a bench script, one after the other.
fn read_lines(alloc: Global, bytes: &[u8], machine: &Machine) -> Result<BenchScript, ScriptError>
    requires { length bytes.now ≤ script_limit }
    ensures read { IfOk result (λ script. IsScript machine.now bytes.now script) }
    ensures refused { IfErr result (IsRefused machine.now bytes.now) }
{
    let mut reader = Reader::new(alloc);
    let mut number = 0u32;
    for line in Lines::of(bytes) {
        number += 1;
        reader.add_line(machine, number, line.bytes)?;
    }
    Ok(BenchScript {
        asked: reader.asked,
    })
}

/// Reads a bench script of at most 4,194,304 bytes for a machine: the commands that its lines spell, in order, each with its
/// line's number, or its first fault (docs/BENCH.md). A line's number counts every line, skipped ones too. On one line the
/// fault of the least number comes. `NoMemory` may come at any script, and says nothing of it.
pub fn read(alloc: Global, bytes: &[u8], machine: &Machine) -> Result<BenchScript, ScriptError>
    requires { length bytes.now ≤ script_limit }
    // It is a bench script without a fault, and these are its commands; or its first fault is this one.
    ensures read { IfOk result (λ script. IsScript machine.now bytes.now script) }
    ensures refused { IfErr result (IsRefused machine.now bytes.now) }

    // A bench script without a fault is read, and one with a fault is refused for it, unless memory runs out.
    ensures faultless { (asked : List (ℕ × BenchCommand)) → IsScript machine.now bytes.now asked
        → IsOkAnd result (λ script. script ≡ asked) ⊎ IsErrOf result ScriptError.NoMemory }
    ensures faulty { (line : ℕ) (kind : ScriptKind) → IsFaultyScript machine.now bytes.now line kind
        → IsErrOf result (ScriptError.At line kind) ⊎ IsErrOf result ScriptError.NoMemory }
{
    read_lines(alloc, bytes, machine)
}
