//! The files of each command, loaded for a machine.

ghost use Rattle.std.specs.Prelude.{IfOk};
ghost use Rattle.std.specs.Result.{result_map_both};
ghost use Rattle.ags_command.specs.Command as command;
ghost use Rattle.ags_command.specs.Views.{command_view};
ghost use Rattle.ags_outside.specs.Count.{HasCause};
ghost use Rattle.ags_plan.specs.Loading.{Loads, end_of, is_absence, is_read_fault};
ghost use Rattle.ags_program.specs.Program.{program, command_plan};
ghost use Rattle.ags_program.specs.Views.{IsReady, line_of, status_of, work_of};

use crate::pairs::{Behind, load_judged};
use ags_command::{Command, SourceText};
use ags_outside::Shelf;
use ags_plan::Unloaded;
use ags_ports::Machine;
use ags_program::{Refusal, Work, load_listing, load_script, load_source};
use std::alloc::Global;

/// Loads the source of a name, of which a text is to be written, for a machine.
fn load_text<'a, S: Shelf>(
    alloc: Global,
    machine: &Machine,
    text: SourceText,
    source: &'a str,
    shelf: &mut S,
) -> Result<Work, Unloaded<'a, Refusal>>
    ensures loads { Loads program (S.told shelf.old) (command_plan machine.now (command.Write text source.entry.now))
        (result_map_both work_of (end_of program line_of status_of) result) }
    ensures ready { IfOk result IsReady }
    ensures faults { HasCause (S.faults shelf.old) (S.faults shelf.new) (is_read_fault result) }
    ensures absences { HasCause (S.absences shelf.old) (S.absences shelf.new) (is_absence result) }
{
    let source = load_source(alloc, machine, source, shelf)?;
    Ok(Work::WriteText { text, source })
}

/// Loads the source and the listing of these names, to be compared, for a machine.
fn load_comparison<'a, S: Shelf>(
    alloc: Global,
    machine: &Machine,
    source: &'a str,
    listing: &'a str,
    shelf: &mut S,
) -> Result<Work, Unloaded<'a, Refusal>>
    ensures loads { Loads program (S.told shelf.old) (command_plan machine.now (command.Compare source.entry.now listing.entry.now))
        (result_map_both work_of (end_of program line_of status_of) result) }
    ensures ready { IfOk result IsReady }
    ensures faults { HasCause (S.faults shelf.old) (S.faults shelf.new) (is_read_fault result) }
    ensures absences { HasCause (S.absences shelf.old) (S.absences shelf.new) (is_absence result) }
{
    let source = load_source(alloc, machine, source, shelf)?;
    let listed = load_listing(alloc, listing, shelf)?;
    let made = source.into_made();
    Ok(Work::CompareImages { made, listed })
}

/// Loads the source and the script of these names, to be played on a machine.
fn load_play<'a, S: Shelf>(
    alloc: Global,
    machine: Machine,
    source: &'a str,
    script: &'a str,
    shelf: &mut S,
) -> Result<Work, Unloaded<'a, Refusal>>
    ensures loads { Loads program (S.told shelf.old) (command_plan machine (command.Run source.entry.now script.entry.now))
        (result_map_both work_of (end_of program line_of status_of) result) }
    ensures ready { IfOk result IsReady }
    ensures faults { HasCause (S.faults shelf.old) (S.faults shelf.new) (is_read_fault result) }
    ensures absences { HasCause (S.absences shelf.old) (S.absences shelf.new) (is_absence result) }
{
    let source = load_source(alloc, &machine, source, shelf)?;
    let script = load_script(alloc, &machine, script, shelf)?;
    let made = source.into_made();
    Ok(Work::PlayScript {
        machine,
        made,
        script,
    })
}

/// Loads the files of a command, for a machine.
pub(crate) fn load_command<'a, S: Shelf>(
    alloc: Global,
    machine: Machine,
    command: Command<'a>,
    shelf: &mut S,
) -> Result<Work, Unloaded<'a, Refusal>>
    ensures loads { Loads program (S.told shelf.old) (command_plan machine (command_view command.entry))
        (result_map_both work_of (end_of program line_of status_of) result) }
    ensures ready { IfOk result IsReady }
    ensures faults { HasCause (S.faults shelf.old) (S.faults shelf.new) (is_read_fault result) }
    ensures absences { HasCause (S.absences shelf.old) (S.absences shelf.new) (is_absence result) }
{
    match command {
        Command::Write { text, source } => load_text(alloc, &machine, text, source, shelf),
        Command::Compare { source, listing } => load_comparison(
            alloc, &machine, source, listing, shelf,
        ),
        Command::Certify {
            source,
            certificate,
        } => load_judged(alloc, machine, source, certificate, Behind::Listing, shelf),
        Command::Run { source, script } => load_play(alloc, machine, source, script, shelf),
        Command::Guard {
            source,
            script,
            certificate,
        } => {
            let behind = Behind::Script(script);
            load_judged(alloc, machine, source, certificate, behind, shelf)
        }
        Command::Budget {
            source,
            certificate,
            times,
        } => {
            let behind = Behind::Times(times);
            load_judged(alloc, machine, source, certificate, behind, shelf)
        }
        Command::Scales {
            source,
            certificate,
            scales,
        } => {
            let behind = Behind::Scales(scales);
            load_judged(alloc, machine, source, certificate, behind, shelf)
        }
        Command::Edits {
            source,
            certificate,
            edits,
        } => {
            let behind = Behind::Edits(edits);
            load_judged(alloc, machine, source, certificate, behind, shelf)
        }
    }
}
