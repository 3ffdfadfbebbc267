//! What the words ask for, loaded: the machine file first, if one is named, then the source, the certificate and the script.

ghost use Rattle.std.specs.Prelude.{◌≡◌, [], IfOk, Some};
ghost use Rattle.std.specs.Result.{result_map_both};
ghost use Rattle.ags_bench.specs.Loaded.{LoadsPair};
ghost use Rattle.ags_bench.specs.Program.{asked_plan, files_plan, plan_on, program};
ghost use Rattle.ags_bench.specs.Views.{IsReady, line_of, status_of, work_of};
ghost use Rattle.ags_bench.specs.Words.{asked_view};
ghost use Rattle.ags_outside.specs.Count.{HasCause};
ghost use Rattle.ags_plan.specs.Loading.{Loads, end_of, is_absence, is_read_fault};
ghost use Rattle.ags_program.specs.Views.{IsReadSource, pair_of};

use crate::files::{load_certificate, load_machine, load_script, load_source};
use crate::refusal::Refusal;
use crate::words::Asked;
use crate::works::Work;
use ags_outside::Shelf;
use ags_plan::Unloaded;
use ags_ports::Machine;
use ags_program::ReadPair;
use std::alloc::Global;

/// Loads the source and the certificate of these names, in this order, for a machine, whatever is read after them.
fn load_pair<'a, S: Shelf>(
    alloc: Global,
    machine: Machine,
    source: &'a str,
    certificate: &'a str,
    shelf: &mut S,
) -> Result<ReadPair, Unloaded<'a, Refusal>>
    ensures same { S.told shelf.new ≡ S.told shelf.old }
    ensures loads { LoadsPair (S.told shelf.old) machine source.entry.now certificate.entry.now
        (result_map_both pair_of (end_of (program []) line_of status_of) result) }
    ensures ready { IfOk result (λ pair. IsReadSource pair.source) }
    ensures faults { HasCause (S.faults shelf.old) (S.faults shelf.new) (is_read_fault result) }
    ensures absences { HasCause (S.absences shelf.old) (S.absences shelf.new) (is_absence result) }
{
    let source = load_source(alloc, &machine, source, shelf)?;
    let cert = load_certificate(alloc, &machine, certificate, shelf)?;
    Ok(ReadPair {
        machine,
        source,
        cert,
    })
}

/// Loads the source, the certificate and the script, in this order, for a machine.
fn load_files<'a, S: Shelf>(
    alloc: Global,
    machine: Machine,
    asked: Asked<'a>,
    shelf: &mut S,
) -> Result<Work, Unloaded<'a, Refusal>>
    ensures loads { Loads (program []) (S.told shelf.old) (files_plan [] (asked_view asked.entry) machine)
        (result_map_both work_of (end_of (program []) line_of status_of) result) }
    ensures ready { IfOk result IsReady }
    ensures faults { HasCause (S.faults shelf.old) (S.faults shelf.new) (is_read_fault result) }
    ensures absences { HasCause (S.absences shelf.old) (S.absences shelf.new) (is_absence result) }
{
    let pair = load_pair(alloc, machine, asked.source, asked.certificate, shelf)?;
    let script = load_script(alloc, &pair.machine, asked.script, shelf)?;
    Ok(Work::DrivePair { pair, script })
}

/// Loads the files for the machine of a file.
fn load_on<'a, S: Shelf>(
    alloc: Global,
    name: &'a str,
    asked: Asked<'a>,
    shelf: &mut S,
) -> Result<Work, Unloaded<'a, Refusal>>
    ensures loads { Loads (program []) (S.told shelf.old) (plan_on [] (Some name.entry.now) (files_plan [] (asked_view asked.entry)))
        (result_map_both work_of (end_of (program []) line_of status_of) result) }
    ensures ready { IfOk result IsReady }
    ensures faults { HasCause (S.faults shelf.old) (S.faults shelf.new) (is_read_fault result) }
    ensures absences { HasCause (S.absences shelf.old) (S.absences shelf.new) (is_absence result) }
{
    let machine = load_machine(alloc, name, shelf)?;
    load_files(alloc, machine, asked, shelf)
}

/// Loads what is asked for: each file is looked for only where those before it were read.
pub(crate) fn load_asked<'a, S: Shelf>(
    alloc: Global,
    asked: Asked<'a>,
    shelf: &mut S,
) -> Result<Work, Unloaded<'a, Refusal>>
    ensures loads { Loads (program []) (S.told shelf.old) (asked_plan [] (Some (asked_view asked.entry)))
        (result_map_both work_of (end_of (program []) line_of status_of) result) }
    ensures ready { IfOk result IsReady }
    ensures faults { HasCause (S.faults shelf.old) (S.faults shelf.new) (is_read_fault result) }
    ensures absences { HasCause (S.absences shelf.old) (S.absences shelf.new) (is_absence result) }
{
    match asked.machine {
        Some(name) => load_on(alloc, name, asked, shelf),
        None => load_files(alloc, Machine::standard(), asked, shelf),
    }
}
