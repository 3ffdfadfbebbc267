//! The files that commands read, each a kind of the program's: loaded as any program's, with the program's own refusals. An error is
//! why one wasn't read: it is absent, longer than its limit, refused for its first fault, or couldn't be read; or memory ran out.

ghost use Rattle.std.specs.Prelude.{◌≡◌, ◌≤◌, All, IfOk, length};
ghost use Rattle.std.specs.Result.{result_map_both};
ghost use Rattle.ags_edits.specs.Text.{IsLawful};
ghost use Rattle.ags_outside.specs.Count.{HasCause};
ghost use Rattle.ags_plan.specs.Loading.{LoadsFile, end_of, is_absence, is_read_fault};
ghost use Rattle.ags_script.specs.Script.{IsReadFor};
ghost use Rattle.ags_program.specs.Files as file;
ghost use Rattle.ags_program.specs.Program.{program};
ghost use Rattle.ags_program.specs.Views.{IsReadSource, assembly_of, line_of, status_of};

use crate::refusal::Refusal;
use ags_cert::Cert;
use ags_edits::Edit;
use ags_files::{SourceFile, refused_by};
use ags_image::Image;
use ags_outside::Shelf;
use ags_plan::Unloaded;
use ags_ports::Machine;
use ags_script::Script;
use ags_tags::Scales;
use ags_times::Budget;
use std::alloc::Global;

/// Loads the machine of a file of that name (docs/MACHINE.md), or says why it wasn't read.
pub fn load_machine<'a, S: Shelf>(
    alloc: Global,
    name: &'a str,
    shelf: &mut S,
) -> Result<Machine, Unloaded<'a, Refusal>>
    ensures same { S.told shelf.new ≡ S.told shelf.old }
    ensures loads { LoadsFile program (S.told shelf.old) file.MachineFile name.entry.now (result_map_both (λ machine. machine) (end_of program line_of status_of) result) }
    ensures faults { HasCause (S.faults shelf.old) (S.faults shelf.new) (is_read_fault result) }
    ensures absences { HasCause (S.absences shelf.old) (S.absences shelf.new) (is_absence result) }
{
    refused_by(ags_files::load_machine(alloc, name, shelf))
}

/// Loads the source of a name (docs/SOURCE.md), for a machine, or says why it wasn't read.
pub fn load_source<'a, S: Shelf>(
    alloc: Global,
    machine: &Machine,
    name: &'a str,
    shelf: &mut S,
) -> Result<SourceFile, Unloaded<'a, Refusal>>
    ensures same { S.told shelf.new ≡ S.told shelf.old }
    ensures loads { LoadsFile program (S.told shelf.old) (file.Source machine.now) name.entry.now (result_map_both assembly_of (end_of program line_of status_of) result) }
    ensures ready { IfOk result IsReadSource }
    ensures faults { HasCause (S.faults shelf.old) (S.faults shelf.new) (is_read_fault result) }
    ensures absences { HasCause (S.absences shelf.old) (S.absences shelf.new) (is_absence result) }
{
    refused_by(ags_files::load_source(alloc, machine, name, shelf))
}

/// Loads the image of the listing of a name (docs/COMMANDS.md), or says why it wasn't read.
pub fn load_listing<'a, S: Shelf>(
    alloc: Global,
    name: &'a str,
    shelf: &mut S,
) -> Result<Image, Unloaded<'a, Refusal>>
    ensures same { S.told shelf.new ≡ S.told shelf.old }
    ensures loads { LoadsFile program (S.told shelf.old) file.Listing name.entry.now (result_map_both (λ image. image) (end_of program line_of status_of) result) }
    ensures faults { HasCause (S.faults shelf.old) (S.faults shelf.new) (is_read_fault result) }
    ensures absences { HasCause (S.absences shelf.old) (S.absences shelf.new) (is_absence result) }
{
    refused_by(ags_files::load_listing(alloc, name, shelf))
}

/// Loads the certificate of a name (docs/CERTIFICATE.md), for a machine, or says why it wasn't read.
pub fn load_certificate<'a, S: Shelf>(
    alloc: Global,
    machine: &Machine,
    name: &'a str,
    shelf: &mut S,
) -> Result<Cert, Unloaded<'a, Refusal>>
    ensures same { S.told shelf.new ≡ S.told shelf.old }
    ensures loads { LoadsFile program (S.told shelf.old) (file.Certificate machine.now) name.entry.now (result_map_both (λ cert. cert) (end_of program line_of status_of) result) }
    ensures faults { HasCause (S.faults shelf.old) (S.faults shelf.new) (is_read_fault result) }
    ensures absences { HasCause (S.absences shelf.old) (S.absences shelf.new) (is_absence result) }
{
    refused_by(ags_files::load_certificate(alloc, machine, name, shelf))
}

/// Loads the script of a name (docs/SCRIPT.md), for a machine, or says why it wasn't read.
pub fn load_script<'a, S: Shelf>(
    alloc: Global,
    machine: &Machine,
    name: &'a str,
    shelf: &mut S,
) -> Result<Script, Unloaded<'a, Refusal>>
    ensures same { S.told shelf.new ≡ S.told shelf.old }
    ensures loads { LoadsFile program (S.told shelf.old) (file.Script machine.now) name.entry.now (result_map_both (λ script. script) (end_of program line_of status_of) result) }
    ensures ready { IfOk result (IsReadFor machine.now) }
    ensures faults { HasCause (S.faults shelf.old) (S.faults shelf.new) (is_read_fault result) }
    ensures absences { HasCause (S.absences shelf.old) (S.absences shelf.new) (is_absence result) }
{
    refused_by(ags_files::load_script(alloc, machine, name, shelf))
}

/// Loads the text of times of a name (docs/TIMES.md), for a certificate of so many rows, or says why it wasn't read.
pub fn load_times<'a, S: Shelf>(
    alloc: Global,
    rows: u32,
    name: &'a str,
    shelf: &mut S,
) -> Result<Budget, Unloaded<'a, Refusal>>
    ensures same { S.told shelf.new ≡ S.told shelf.old }
    ensures loads { LoadsFile program (S.told shelf.old) (file.Times rows) name.entry.now (result_map_both (λ budget. budget) (end_of program line_of status_of) result) }
    ensures ready { IfOk result (λ budget. length budget ≡ rows) }
    ensures faults { HasCause (S.faults shelf.old) (S.faults shelf.new) (is_read_fault result) }
    ensures absences { HasCause (S.absences shelf.old) (S.absences shelf.new) (is_absence result) }
{
    refused_by(ags_files::load_times(alloc, rows, name, shelf))
}

/// Loads the text of scales of a name (docs/SCALES.md), for a machine and a certificate of so many rows, or says why it wasn't read.
pub fn load_scales<'a, S: Shelf>(
    alloc: Global,
    machine: &Machine,
    rows: u32,
    name: &'a str,
    shelf: &mut S,
) -> Result<Scales, Unloaded<'a, Refusal>>
    ensures same { S.told shelf.new ≡ S.told shelf.old }
    ensures loads { LoadsFile program (S.told shelf.old) (file.ScaleTags machine.now rows) name.entry.now (result_map_both (λ scales. scales) (end_of program line_of status_of) result) }
    ensures ready { IfOk result (λ scales. length scales.rows ≡ rows) }
    ensures faults { HasCause (S.faults shelf.old) (S.faults shelf.new) (is_read_fault result) }
    ensures absences { HasCause (S.absences shelf.old) (S.absences shelf.new) (is_absence result) }
{
    refused_by(ags_files::load_scales(alloc, machine, rows, name, shelf))
}

/// Loads the text of edits of a name (docs/EDITS.md), or says why it wasn't read.
pub fn load_edits<'a, S: Shelf>(
    alloc: Global,
    name: &'a str,
    shelf: &mut S,
) -> Result<Vec<Edit>, Unloaded<'a, Refusal>>
    ensures same { S.told shelf.new ≡ S.told shelf.old }
    ensures loads { LoadsFile program (S.told shelf.old) file.EditList name.entry.now (result_map_both (λ edits. edits.items) (end_of program line_of status_of) result) }
    ensures ready { IfOk result (λ edits. All IsLawful edits.items) }
    ensures faults { HasCause (S.faults shelf.old) (S.faults shelf.new) (is_read_fault result) }
    ensures absences { HasCause (S.absences shelf.old) (S.absences shelf.new) (is_absence result) }
{
    refused_by(ags_files::load_edits(alloc, name, shelf))
}
