//! A source and a certificate, loaded with the file that is read behind them, if any: what the commands that judge ask for.

ghost use Rattle.std.specs.Prelude.{◌≡◌, ◌≤◌, IfOk, length};
ghost use Rattle.std.specs.Result.{result_map_both};
ghost use Rattle.ags_outside.specs.Count.{HasCause};
ghost use Rattle.ags_plan.specs.Loading.{Loads, end_of, is_absence, is_read_fault};
ghost use Rattle.ags_asked.specs.Loaded.{LoadsPair, behind_plan};
ghost use Rattle.ags_program.specs.Program.{program, pair_plan};
ghost use Rattle.ags_program.specs.Views.{IsReadSource, IsReady, IsSequelReady, line_of, pair_of, sequel_of, status_of, work_of};
ghost use Rattle.ags_program.specs.Work.{JudgePair};

use ags_cert::Cert;
use ags_outside::Shelf;
use ags_plan::Unloaded;
use ags_ports::Machine;
use ags_program::{
    ReadPair, Refusal, Sequel, Work, load_certificate, load_edits, load_scales, load_script,
    load_source, load_times,
};
use std::alloc::Global;

/// The name of the file that is read behind a pair, by what it is read as, where one is.
#[derive(Drop)]
pub(crate) enum Behind<'a> {
    /// No file: the listing stands before the verdict.
    Listing,
    /// A script, to be played.
    Script(&'a str),
    /// A text of times.
    Times(&'a str),
    /// A text of scales.
    Scales(&'a str),
    /// A text of edits.
    Edits(&'a str),
}

/// Loads the source and the certificate of these names, in this order, for a machine, whatever is read after them.
fn load_pair<'a, S: Shelf>(
    alloc: Global,
    machine: Machine,
    source: &'a str,
    certificate: &'a str,
    shelf: &mut S,
) -> Result<ReadPair, Unloaded<'a, Refusal>>
    ensures same { S.told shelf.new ≡ S.told shelf.old }
    ensures loads { LoadsPair (S.told shelf.old) machine source.entry.now certificate.entry.now (result_map_both pair_of (end_of program line_of status_of) result) }
    ensures ready { IfOk result (λ pair. IsReadSource pair.source) }
    ensures faults { HasCause (S.faults shelf.old) (S.faults shelf.new) (is_read_fault result) }
    ensures absences { HasCause (S.absences shelf.old) (S.absences shelf.new) (is_absence result) }
{
    let source = load_source(alloc, &machine, source, shelf)?;
    let cert = load_certificate(alloc, &machine, certificate, shelf)?;
    Ok(ReadPair {
        machine,
        source,
        cert,
    })
}

/// How many rows a certificate has.
fn row_count(cert: &Cert) -> u32
    ensures count { result ≡ length cert.now.rows }
    ensures few { result ≤ 20000 }
{
    cert.rows().len() as u32
}

/// Loads the file that is read behind a pair, for its machine and its certificate, into what stands with the verdict.
fn load_sequel<'a, S: Shelf>(
    alloc: Global,
    pair: &ReadPair,
    behind: Behind<'a>,
    shelf: &mut S,
) -> Result<Sequel, Unloaded<'a, Refusal>>
    ensures loads { Loads program (S.told shelf.old) (behind_plan behind.entry (pair_of pair.now))
        (result_map_both (λ sequel. JudgePair (pair_of pair.now) (sequel_of sequel)) (end_of program line_of status_of) result) }
    ensures ready { IfOk result (IsSequelReady pair.now) }
    ensures faults { HasCause (S.faults shelf.old) (S.faults shelf.new) (is_read_fault result) }
    ensures absences { HasCause (S.absences shelf.old) (S.absences shelf.new) (is_absence result) }
{
    match behind {
        Behind::Listing => Ok(Sequel::ListingBefore),
        Behind::Script(name) => {
            let script = load_script(alloc, &pair.machine, name, shelf)?;
            Ok(Sequel::PlayBehind(script))
        }
        Behind::Times(name) => {
            let budget = load_times(alloc, row_count(&pair.cert), name, shelf)?;
            Ok(Sequel::BudgetBehind(budget))
        }
        Behind::Scales(name) => {
            let scales = load_scales(alloc, &pair.machine, row_count(&pair.cert), name, shelf)?;
            Ok(Sequel::ScalesBehind(scales))
        }
        Behind::Edits(name) => {
            let edits = load_edits(alloc, name, shelf)?;
            Ok(Sequel::EditsBehind(edits))
        }
    }
}

/// Loads the source and the certificate of these names, and what is read behind them, in this order, to be judged for a machine.
pub(crate) fn load_judged<'a, S: Shelf>(
    alloc: Global,
    machine: Machine,
    source: &'a str,
    certificate: &'a str,
    behind: Behind<'a>,
    shelf: &mut S,
) -> Result<Work, Unloaded<'a, Refusal>>
    ensures loads { Loads program (S.told shelf.old) (pair_plan machine source.entry.now certificate.entry.now (behind_plan behind.entry))
        (result_map_both work_of (end_of program line_of status_of) result) }
    ensures ready { IfOk result IsReady }
    ensures faults { HasCause (S.faults shelf.old) (S.faults shelf.new) (is_read_fault result) }
    ensures absences { HasCause (S.absences shelf.old) (S.absences shelf.new) (is_absence result) }
{
    let pair = load_pair(alloc, machine, source, certificate, shelf)?;
    let sequel = load_sequel(alloc, &pair, behind, shelf)?;
    Ok(Work::JudgePair { pair, sequel })
}
