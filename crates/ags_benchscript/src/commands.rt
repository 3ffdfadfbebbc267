//! A bench script's commands.

ghost use Rattle.std.specs.Prelude.{◌≡◌};
ghost use Rattle.ags_benchscript.specs.Command.{script_command, bench_command};

use ags_script::Command;

/// What a line of a bench script asks for.
#[derive(Clone, Copy)]
pub enum BenchCommand {
    /// So many steps; none at 0.
    Step(u32),
    /// One pulse of the timer.
    Pulse,
    /// So many cycles; none at 0.
    Cycle(u32),
    /// The processor's registers are shown.
    ShowReg,
    /// The cell at an address is shown.
    ShowCell(u16),
    /// The output register at an address is shown.
    ShowOut(u16),
    /// The device with this number is fed from.
    Feed(u32),
    /// The device with this number leaves.
    Detach(u32),
}

/// The command of a script that a command is as well.
pub(crate) fn script_command(command: BenchCommand) -> Option<Command>
    ensures { result ≡ script_command command }
{
    match command {
        BenchCommand::Step(count) => Some(Command::Step(count)),
        BenchCommand::Pulse => Some(Command::Pulse),
        BenchCommand::Cycle(count) => Some(Command::Cycle(count)),
        BenchCommand::ShowReg => Some(Command::ShowReg),
        BenchCommand::ShowCell(address) => Some(Command::ShowCell(address)),
        BenchCommand::ShowOut(address) => Some(Command::ShowOut(address)),
        BenchCommand::Feed(_) | BenchCommand::Detach(_) => None,
    }
}

/// The command that a command of a script is here, where it is one of those that both have.
pub(crate) fn bench_command(command: Command) -> Option<BenchCommand>
    ensures { result ≡ bench_command command }
{
    match command {
        Command::Step(count) => Some(BenchCommand::Step(count)),
        Command::Pulse => Some(BenchCommand::Pulse),
        Command::Cycle(count) => Some(BenchCommand::Cycle(count)),
        Command::ShowReg => Some(BenchCommand::ShowReg),
        Command::ShowCell(address) => Some(BenchCommand::ShowCell(address)),
        Command::ShowOut(address) => Some(BenchCommand::ShowOut(address)),
        _ => None,
    }
}
