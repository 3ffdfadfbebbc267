//! The reader of a bench script's lines, one after the other.

ghost use Rattle.std.specs.Prelude.{◌≡◌, ◌≤◌, ◌+◌, ◌++◌, [], ◌∷◌, None, IfOk, IfErr};
ghost use Rattle.std.specs.Option.{option_or};
ghost use Rattle.ags_script.specs.Limit.{step_limit};
ghost use Rattle.ags_benchscript.specs.Command.{step_count, lacks_port};
ghost use Rattle.ags_benchscript.specs.Reading.{reading, shared_command, device_command};
ghost use Rattle.ags_benchscript.specs.Script.{reading_fault, asked_in};
ghost use Rattle.ags_benchscript.specs.Spelling.{One};
ghost use Rattle.ags_benchscript.specs.Tally.{IsTally, TellsFault};

use crate::commands::{BenchCommand, bench_command, script_command};
use crate::verbs::device_command;
use ags_ports::Machine;
use ags_script::{STEP_LIMIT, ScriptError, ScriptKind, is_skipped_line, line_command};
use ags_text::MOST_LINE_BYTES;
use std::alloc::Global;

/// What is read of a bench script so far.
#[derive(Drop)]
pub(crate) struct Reader {
    /// Its commands, each with its line's number.
    pub(crate) asked: Vec<(u32, BenchCommand)>,
    /// The steps that they count for.
    steps: u64,
}

/// A malformed line.
fn bad_line(line: u32) -> ScriptError
    ensures { result ≡ ScriptError.At line ScriptKind.BadLine }
{
    ScriptError::At {
        line,
        kind: ScriptKind::BadLine,
    }
}

/// The steps that a command counts for.
fn step_count(command: BenchCommand) -> u64
    ensures { result ≡ step_count command }
{
    match script_command(command) {
        Some(shared) => ags_script::step_count(&shared),
        None => 0,
    }
}

/// Whether a machine lacks the register that a command names.
fn lacks_port(machine: &Machine, command: BenchCommand) -> bool
    ensures { result ≡ lacks_port machine.now command }
{
    match script_command(command) {
        Some(shared) => ags_script::lacks_port(machine, &shared),
        None => false,
    }
}

/// The command of a line that asks for it in a script too.
#[tactic(auto, unfolding(crate::specs::Reading::shared_command))]
fn shared_command(line: &[u8]) -> Option<BenchCommand>
    ensures { result ≡ shared_command line.now }
{
    bench_command(line_command(line)?)
}

/// The command of a line that isn't skipped.
fn command_of(line: &[u8]) -> Option<BenchCommand>
    ensures { result ≡ option_or (shared_command line.now) (device_command line.now) }
{
    shared_command(line).or_else(|| device_command(line))
}

impl Reader {
    /// Nothing is read yet.
    pub(crate) fn new(alloc: Global) -> Reader
        ensures tally { IsTally result }
        ensures none { result.asked.items ≡ [] }
    {
        Reader {
            asked: Vec::new(alloc),
            steps: 0,
        }
    }

    /// Adds a line's command whose steps have room.
    fn push(&mut self, line: u32, command: BenchCommand) -> Result<(), ScriptError>
        requires tally { IsTally self.old }
        requires room { self.old.steps + step_count command ≤ step_limit }
        ensures added { IfOk result (λ _. IsTally self.new × (self.new.asked.items ≡ self.old.asked.items ++ (line, command) ∷ [])) }
        ensures memory { IfErr result (λ error. error ≡ ScriptError.NoMemory) }
    {
        self.asked.push((line, command))?;
        self.steps += step_count(command);
        Ok(())
    }

    /// Adds the command of a line, where it has no fault.
    fn add(
        &mut self,
        machine: &Machine,
        line: u32,
        command: BenchCommand,
    ) -> Result<(), ScriptError>
        requires { IsTally self.old }
        ensures fine { IfOk result (λ _. (reading_fault machine.now self.old.asked.items (One command) ≡ None)
            × IsTally self.new × (self.new.asked.items ≡ self.old.asked.items ++ asked_in line (One command))) }
        ensures faulty { IfErr result (TellsFault machine.now line self.old.asked.items (One command)) }
    {
        if lacks_port(machine, command) {
            return Err(ScriptError::At {
                line,
                kind: ScriptKind::NoPort,
            });
        }
        if step_count(command) > STEP_LIMIT - self.steps {
            return Err(ScriptError::At {
                line,
                kind: ScriptKind::TooManySteps,
            });
        }
        self.push(line, command)
    }

    /// Adds the command of a line, where it has no fault.
    #[tactic(auto, unfolding(crate::specs::Reading::reading))]
    pub(crate) fn add_line(
        &mut self,
        machine: &Machine,
        line: u32,
        bytes: &[u8],
    ) -> Result<(), ScriptError>
        requires { IsTally self.old }
        ensures fine { IfOk result (λ _. (reading_fault machine.now self.old.asked.items (reading bytes.now) ≡ None)
            × IsTally self.new × (self.new.asked.items ≡ self.old.asked.items ++ asked_in line (reading bytes.now))) }
        ensures faulty { IfErr result (TellsFault machine.now line self.old.asked.items (reading bytes.now)) }
    {
        if bytes.len() > MOST_LINE_BYTES {
            return Err(bad_line(line));
        }
        if is_skipped_line(bytes) {
            return Ok(());
        }
        let Some(command) = command_of(bytes) else {
            return Err(bad_line(line));
        };
        self.add(machine, line, command)
    }
}
