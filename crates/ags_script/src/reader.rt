//! The reader of a script's lines, one after the other.

ghost use Rattle.std.specs.Prelude.{◌≡◌, ◌≤◌, ◌+◌, ◌++◌, ◌⊎◌, List, [], ◌∷◌, map, Some, None, IfOk, IfErr};
ghost use Rattle.ags_deda.specs.declared.keys.Key.{Key};
ghost use Rattle.ags_script.specs.declared.commands.Command.TheVariants.{Press};
ghost use Rattle.ags_script.specs.Limit.{step_limit};
ghost use Rattle.ags_script.specs.Command.{step_count};
ghost use Rattle.ags_script.specs.Operand.{fields_of, keys_named};
ghost use Rattle.ags_script.specs.Reading.{reading, some_keys};
ghost use Rattle.ags_script.specs.Script.{is_misplaced, reading_fault, commands_in};
ghost use Rattle.ags_script.specs.Spelling.{One};
ghost use Rattle.ags_script.specs.Tally.{IsTally, TellsFault};

use crate::commands::Command;
use crate::counting::{STEP_LIMIT, is_setting, is_start, lacks_port, step_count};
use crate::keys::key_named;
use crate::lines::is_skipped;
use crate::operands::has_no_field;
use crate::script_errors::{ScriptError, ScriptKind};
use crate::verb_commands::{is_key, verb_command};
use crate::verbs::verb_named;
use ags_ports::Machine;
use ags_text::{MOST_LINE_BYTES, split_field};
use std::alloc::Global;

/// What is read of a script so far.
#[derive(Drop)]
pub(crate) struct Reader {
    /// Its commands.
    pub(crate) commands: Vec<Command>,
    /// The steps that they count for.
    steps: u64,
    /// Whether one of them is START.
    started: bool,
    /// Whether one of them is more than what the machine begins with.
    begun: bool,
}

/// A malformed line, or one that is out of place.
fn bad_line(line: u32) -> ScriptError
    ensures { result ≡ ScriptError.At line ScriptKind.BadLine }
{
    ScriptError::At {
        line,
        kind: ScriptKind::BadLine,
    }
}

impl Reader {
    /// Nothing is read yet.
    pub(crate) fn new(alloc: Global) -> Reader
        ensures tally { IsTally result }
        ensures none { result.commands.items ≡ [] }
    {
        Reader {
            commands: Vec::new(alloc),
            steps: 0,
            started: false,
            begun: false,
        }
    }

    /// Whether a command is out of place.
    fn is_misplaced(&self, command: &Command) -> bool
        requires { IsTally self.now }
        ensures { result ≡ is_misplaced self.now.commands.items command.now }
    {
        is_setting(command) && self.begun || is_start(command) && self.started
    }

    /// Adds a command whose steps have room.
    fn push(&mut self, command: Command) -> Result<(), ScriptError>
        requires tally { IsTally self.old }
        requires room { self.old.steps + step_count command ≤ step_limit }
        ensures added { IfOk result (λ _. IsTally self.new × (self.new.commands.items ≡ self.old.commands.items ++ command ∷ [])) }
        ensures memory { IfErr result (λ error. error ≡ ScriptError.NoMemory) }
    {
        self.commands.push(command)?;
        self.steps += step_count(&command);
        self.started = self.started || is_start(&command);
        self.begun = self.begun || !is_setting(&command);
        Ok(())
    }

    /// Adds the command of a line, where it has no fault.
    fn add(&mut self, machine: &Machine, line: u32, command: Command) -> Result<(), ScriptError>
        requires { IsTally self.old }
        ensures fine { IfOk result (λ _. (reading_fault machine.now self.old.commands.items (One command) ≡ None)
            × IsTally self.new × (self.new.commands.items ≡ self.old.commands.items ++ commands_in (One command))) }
        ensures faulty { IfErr result (TellsFault machine.now line self.old.commands.items (One command)) }
    {
        if self.is_misplaced(&command) {
            return Err(bad_line(line));
        }
        if lacks_port(machine, &command) {
            return Err(ScriptError::At {
                line,
                kind: ScriptKind::NoPort,
            });
        }
        if step_count(&command) > STEP_LIMIT - self.steps {
            return Err(ScriptError::At {
                line,
                kind: ScriptKind::TooManySteps,
            });
        }
        self.push(command)
    }

    /// Adds a press for each key that is named.
    fn push_keys(&mut self, line: u32, names: &[u8]) -> Result<(), ScriptError>
        requires { IsTally self.old }
        ensures added { IfOk result (λ _. (keys : List Key) × (keys_named (fields_of names.now) ≡ Some keys)
            × IsTally self.new × (self.new.commands.items ≡ self.old.commands.items ++ map Press keys)) }
        ensures refused { IfErr result (λ error. (error ≡ ScriptError.NoMemory)
            ⊎ ((error ≡ ScriptError.At line ScriptKind.BadLine) × (keys_named (fields_of names.now) ≡ None))) }
    {
        let mut rest = names;
        while !has_no_field(rest) {
            let (name, behind) = split_field(rest);
            let Some(key) = key_named(name) else {
                return Err(bad_line(line));
            };
            self.push(Command::Press(key))?;
            rest = behind;
        }
        Ok(())
    }

    /// Adds the presses of a line of keys, where it has one at least.
    fn add_keys(&mut self, machine: &Machine, line: u32, names: &[u8]) -> Result<(), ScriptError>
        requires { IsTally self.old }
        ensures fine { IfOk result (λ _. (reading_fault machine.now self.old.commands.items (some_keys (keys_named (fields_of names.now))) ≡ None)
            × IsTally self.new × (self.new.commands.items ≡ self.old.commands.items ++ commands_in (some_keys (keys_named (fields_of names.now))))) }
        ensures faulty { IfErr result (TellsFault machine.now line self.old.commands.items (some_keys (keys_named (fields_of names.now)))) }
    {
        if has_no_field(names) {
            return Err(bad_line(line));
        }
        self.push_keys(line, names)
    }

    /// Adds the commands of a line, where it has no fault.
    #[tactic(auto, unfolding(crate::specs::Reading::reading, crate::specs::Reading::fields_reading))]
    pub(crate) fn add_line(
        &mut self,
        machine: &Machine,
        line: u32,
        bytes: &[u8],
    ) -> Result<(), ScriptError>
        requires { IsTally self.old }
        ensures fine { IfOk result (λ _. (reading_fault machine.now self.old.commands.items (reading bytes.now) ≡ None)
            × IsTally self.new × (self.new.commands.items ≡ self.old.commands.items ++ commands_in (reading bytes.now))) }
        ensures faulty { IfErr result (TellsFault machine.now line self.old.commands.items (reading bytes.now)) }
    {
        if bytes.len() > MOST_LINE_BYTES {
            return Err(bad_line(line));
        }
        if is_skipped(bytes) {
            return Ok(());
        }
        let (name, fields) = split_field(bytes);
        let Some(verb) = verb_named(name) else {
            return Err(bad_line(line));
        };
        if is_key(verb) {
            return self.add_keys(machine, line, fields);
        }
        let Some(command) = verb_command(verb, fields) else {
            return Err(bad_line(line));
        };
        self.add(machine, line, command)
    }
}
