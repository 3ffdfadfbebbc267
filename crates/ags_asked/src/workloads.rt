//! A workload: its two texts, which the program makes itself, read as files of their kinds.

ghost use Rattle.std.specs.Prelude.{◌≡◌, ◌≤◌, false, IfOk};
ghost use Rattle.std.specs.Result.{result_map_both};
ghost use Rattle.ags_load.specs.Workload.{cert_text, source_text};
ghost use Rattle.ags_plan.specs.Loading.{Loads, TakesBytes, end_of, is_absence, is_read_fault};
ghost use Rattle.ags_plan.specs.Walk.{Told};
ghost use Rattle.ags_program.specs.Files as file;
ghost use Rattle.ags_program.specs.Program.{program, workload_certificate, workload_plan, workload_source};
ghost use Rattle.ags_program.specs.Views.{IsReadSource, IsReady, assembly_of, line_of, status_of, work_of};

use ags_cert::Cert;
use ags_files::{SourceFile, read_certificate, read_source, refused_by};
use ags_load::{cert, source};
use ags_plan::Unloaded;
use ags_ports::Machine;
use ags_program::{ReadPair, Refusal, Sequel, Work};
use std::alloc::Global;

/// The source of the workload of a size, read for a machine.
fn take_source<'a>(
    alloc: Global,
    machine: &Machine,
    size: u32,
) -> Result<SourceFile, Unloaded<'a, Refusal>>
    requires one { 1 ≤ size }
    requires many { size ≤ 400 }
    ensures takes { (told : Told) → TakesBytes program told (file.Source machine.now) workload_source (source_text size)
        (result_map_both assembly_of (end_of program line_of status_of) result) }
    ensures ready { IfOk result IsReadSource }
    ensures no_fault { is_read_fault result ≡ false }
    ensures no_absence { is_absence result ≡ false }
{
    match source(alloc, size) {
        Ok(text) => refused_by(read_source(alloc, machine, text)),
        Err(_) => Err(Unloaded::NoMemory),
    }
}

/// The certificate of the workload of a size, read for a machine.
fn take_certificate<'a>(
    alloc: Global,
    machine: &Machine,
    size: u32,
) -> Result<Cert, Unloaded<'a, Refusal>>
    requires one { 1 ≤ size }
    requires many { size ≤ 400 }
    ensures takes { (told : Told) → TakesBytes program told (file.Certificate machine.now) workload_certificate (cert_text size)
        (result_map_both (λ cert. cert) (end_of program line_of status_of) result) }
    ensures no_fault { is_read_fault result ≡ false }
    ensures no_absence { is_absence result ≡ false }
{
    match cert(alloc, size) {
        Ok(text) => refused_by(read_certificate(alloc, machine, &text)),
        Err(_) => Err(Unloaded::NoMemory),
    }
}

/// Makes the texts of the workload of a size and reads them: its source first, and then its certificate. No shelf is asked for them.
pub(crate) fn load_workload<'a>(alloc: Global, size: u32) -> Result<Work, Unloaded<'a, Refusal>>
    requires one { 1 ≤ size }
    requires many { size ≤ 400 }
    ensures loads { (told : Told) → Loads program told (workload_plan size) (result_map_both work_of (end_of program line_of status_of) result) }
    ensures ready { IfOk result IsReady }
    ensures no_fault { is_read_fault result ≡ false }
    ensures no_absence { is_absence result ≡ false }
{
    let machine = Machine::standard();
    let source = take_source(alloc, &machine, size)?;
    let cert = take_certificate(alloc, &machine, size)?;
    Ok(Work::JudgePair {
        pair: ReadPair {
            machine,
            source,
            cert,
        },
        sequel: Sequel::CountsInstead(size),
    })
}
