//! What commands count for, and what they need of a machine.

ghost use Rattle.std.specs.Prelude.{◌≡◌};
ghost use Rattle.ags_script.specs.Command.{is_start, is_setting, step_count, lacks_port};

use crate::commands::Command;
use ags_ports::Machine;

/// The most steps of a script.
pub const STEP_LIMIT: u64 = 100_000_000;

/// The steps that a cycle counts for.
pub const CYCLE_STEPS: u64 = 20_000;

/// Whether a command is START.
pub(crate) fn is_start(command: &Command) -> bool
    ensures { result ≡ is_start command.now }
{
    matches!(command, Command::Start(_))
}

/// Whether a command says what the machine begins with.
pub(crate) fn is_setting(command: &Command) -> bool
    ensures { result ≡ is_setting command.now }
{
    matches!(
        command,
        Command::Start(_) | Command::Cell { .. } | Command::Port { .. }
    )
}

/// The steps that a command counts for: a cycle counts for 20,000.
pub fn step_count(command: &Command) -> u64
    ensures { result ≡ step_count command.now }
{
    match command {
        Command::Step(count) => *count as u64,
        Command::Cycle(count) => CYCLE_STEPS * *count as u64,
        _ => 0,
    }
}

/// Whether a machine lacks the register that a command names.
pub fn lacks_port(machine: &Machine, command: &Command) -> bool
    ensures { result ≡ lacks_port machine.now command.now }
{
    match command {
        Command::Port { address, .. } => machine.ports.find_input(*address).is_none(),
        Command::Set { address, .. } => machine.ports.find_input(*address).is_none(),
        Command::ShowOut(address) => machine.ports.find_output(*address).is_none(),
        Command::Feed => machine.ports.find_input(machine.deda_in).is_none(),
        _ => false,
    }
}
