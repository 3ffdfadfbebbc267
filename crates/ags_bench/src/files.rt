//! The files that the bench reads, each a kind of its own: loaded as any program's, with its own refusals.

ghost use Rattle.std.specs.Prelude.{◌≡◌, [], IfOk};
ghost use Rattle.std.specs.Result.{result_map_both};
ghost use Rattle.ags_outside.specs.Count.{HasCause};
ghost use Rattle.ags_plan.specs.Loading.{LoadsFile, end_of, is_absence, is_read_fault};
ghost use Rattle.ags_benchscript.specs.Script.{IsReadFor};
ghost use Rattle.ags_bench.specs.Files as file;
ghost use Rattle.ags_bench.specs.Program.{program};
ghost use Rattle.ags_bench.specs.Views.{line_of, status_of};
ghost use Rattle.ags_program.specs.Views.{IsReadSource, assembly_of};

use crate::refusal::Refusal;
use crate::scripts::fetch_script;
use ags_benchscript::BenchScript;
use ags_cert::Cert;
use ags_files::{SourceFile, refused_by};
use ags_outside::Shelf;
use ags_plan::Unloaded;
use ags_ports::Machine;
use std::alloc::Global;

/// Loads the machine of a file of that name.
pub(crate) fn load_machine<'a, S: Shelf>(
    alloc: Global,
    name: &'a str,
    shelf: &mut S,
) -> Result<Machine, Unloaded<'a, Refusal>>
    ensures same { S.told shelf.new ≡ S.told shelf.old }
    ensures loads { LoadsFile (program []) (S.told shelf.old) file.MachineFile name.entry.now (result_map_both (λ machine. machine) (end_of (program []) line_of status_of) result) }
    ensures faults { HasCause (S.faults shelf.old) (S.faults shelf.new) (is_read_fault result) }
    ensures absences { HasCause (S.absences shelf.old) (S.absences shelf.new) (is_absence result) }
{
    refused_by(ags_files::load_machine(alloc, name, shelf))
}

/// Loads the source of a name, for a machine.
pub(crate) fn load_source<'a, S: Shelf>(
    alloc: Global,
    machine: &Machine,
    name: &'a str,
    shelf: &mut S,
) -> Result<SourceFile, Unloaded<'a, Refusal>>
    ensures same { S.told shelf.new ≡ S.told shelf.old }
    ensures loads { LoadsFile (program []) (S.told shelf.old) (file.Source machine.now) name.entry.now (result_map_both assembly_of (end_of (program []) line_of status_of) result) }
    ensures ready { IfOk result IsReadSource }
    ensures faults { HasCause (S.faults shelf.old) (S.faults shelf.new) (is_read_fault result) }
    ensures absences { HasCause (S.absences shelf.old) (S.absences shelf.new) (is_absence result) }
{
    refused_by(ags_files::load_source(alloc, machine, name, shelf))
}

/// Loads the certificate of a name, for a machine.
pub(crate) fn load_certificate<'a, S: Shelf>(
    alloc: Global,
    machine: &Machine,
    name: &'a str,
    shelf: &mut S,
) -> Result<Cert, Unloaded<'a, Refusal>>
    ensures same { S.told shelf.new ≡ S.told shelf.old }
    ensures loads { LoadsFile (program []) (S.told shelf.old) (file.Certificate machine.now) name.entry.now (result_map_both (λ cert. cert) (end_of (program []) line_of status_of) result) }
    ensures faults { HasCause (S.faults shelf.old) (S.faults shelf.new) (is_read_fault result) }
    ensures absences { HasCause (S.absences shelf.old) (S.absences shelf.new) (is_absence result) }
{
    refused_by(ags_files::load_certificate(alloc, machine, name, shelf))
}

/// Loads the bench script of a name, for a machine.
pub(crate) fn load_script<'a, S: Shelf>(
    alloc: Global,
    machine: &Machine,
    name: &'a str,
    shelf: &mut S,
) -> Result<BenchScript, Unloaded<'a, Refusal>>
    ensures same { S.told shelf.new ≡ S.told shelf.old }
    ensures loads { LoadsFile (program []) (S.told shelf.old) (file.Script machine.now) name.entry.now (result_map_both (λ script. script) (end_of (program []) line_of status_of) result) }
    ensures ready { IfOk result (IsReadFor machine.now) }
    ensures faults { HasCause (S.faults shelf.old) (S.faults shelf.new) (is_read_fault result) }
    ensures absences { HasCause (S.absences shelf.old) (S.absences shelf.new) (is_absence result) }
{
    refused_by(fetch_script(alloc, machine, name, shelf))
}
