//! What is asked for, loaded: the files of a command line, that of its machine first, if it names one; or a workload's texts.

ghost use Rattle.std.specs.Prelude.{IfOk, Some};
ghost use Rattle.std.specs.Result.{result_map_both};
ghost use Rattle.ags_command.specs.Command as command;
ghost use Rattle.ags_command.specs.Views.{asked_view, command_view, line_view};
ghost use Rattle.ags_outside.specs.Count.{HasCause};
ghost use Rattle.ags_plan.specs.Loading.{Loads, end_of, is_absence, is_read_fault};
ghost use Rattle.ags_program.specs.Program.{asked_plan, command_plan, plan_on, program};
ghost use Rattle.ags_program.specs.Views.{IsReady, line_of, status_of, work_of};

use crate::commands::load_command;
use crate::workloads::load_workload;
use ags_command::{Asked, Command, CommandLine};
use ags_outside::Shelf;
use ags_plan::Unloaded;
use ags_ports::Machine;
use ags_program::{Refusal, Work, load_machine};
use std::alloc::Global;

/// Loads the files of a command on the machine of a file.
fn load_on<'a, S: Shelf>(
    alloc: Global,
    name: &'a str,
    command: Command<'a>,
    shelf: &mut S,
) -> Result<Work, Unloaded<'a, Refusal>>
    ensures loads { Loads program (S.told shelf.old) (plan_on (Some name.entry.now) (λ machine. command_plan machine (command_view command.entry)))
        (result_map_both work_of (end_of program line_of status_of) result) }
    ensures ready { IfOk result IsReady }
    ensures faults { HasCause (S.faults shelf.old) (S.faults shelf.new) (is_read_fault result) }
    ensures absences { HasCause (S.absences shelf.old) (S.absences shelf.new) (is_absence result) }
{
    let machine = load_machine(alloc, name, shelf)?;
    load_command(alloc, machine, command, shelf)
}

/// Loads the files that a command line names into the work that it asks for: that of its machine first, if it names one, and then
/// those of its command, each looked for only where those before it were read.
fn load_line<'a, S: Shelf>(
    alloc: Global,
    line: CommandLine<'a>,
    shelf: &mut S,
) -> Result<Work, Unloaded<'a, Refusal>>
    ensures loads { Loads program (S.told shelf.old) (asked_plan (Some (command.OnMachine (line_view line.entry))))
        (result_map_both work_of (end_of program line_of status_of) result) }
    ensures ready { IfOk result IsReady }
    ensures faults { HasCause (S.faults shelf.old) (S.faults shelf.new) (is_read_fault result) }
    ensures absences { HasCause (S.absences shelf.old) (S.absences shelf.new) (is_absence result) }
{
    match line.machine {
        Some(name) => load_on(alloc, name, line.command, shelf),
        None => load_command(alloc, Machine::standard(), line.command, shelf),
    }
}

/// Loads what is asked for into its work (the README, Commands). An error is why a file or a text of it wasn't read: it is absent,
/// longer than its limit, refused for its first fault, or couldn't be read; or memory ran out, which may come at any file.
pub fn load_asked<'a, S: Shelf>(
    alloc: Global,
    asked: Asked<'a>,
    shelf: &mut S,
) -> Result<Work, Unloaded<'a, Refusal>>
    requires { command.IsAsked (asked_view asked) }
    ensures loads { Loads program (S.told shelf.old) (asked_plan (Some (asked_view asked.entry)))
        (result_map_both work_of (end_of program line_of status_of) result) }
    ensures ready { IfOk result IsReady }
    ensures faults { HasCause (S.faults shelf.old) (S.faults shelf.new) (is_read_fault result) }
    ensures absences { HasCause (S.absences shelf.old) (S.absences shelf.new) (is_absence result) }
{
    match asked {
        Asked::OnMachine(line) => load_line(alloc, line, shelf),
        Asked::Workload(size) => load_workload(alloc, size),
    }
}
