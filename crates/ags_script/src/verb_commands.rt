//! The command of a verb with the fields after it.

ghost use Rattle.std.specs.Prelude.{◌≡◌, Some};
ghost use Rattle.ags_script.specs.declared.verbs.Verb.TheVariants as verb;
ghost use Rattle.ags_script.specs.declared.commands.Command.TheVariants.{ShowCell, ShowOut};
ghost use Rattle.ags_script.specs.Operand.{fields_of};
ghost use Rattle.std.specs.Option.{option_map};
ghost use Rattle.ags_script.specs.Reading.{bare, verb_command, show_command, subject_command, address_operand, is_key};

use crate::commands::Command;
use crate::operands::{address_operand, count_operand, has_no_field, word_operands};
use crate::verbs::{Subject, Verb, subject_named};
use ags_text::split_field;
use ags_word::ERASABLE;

/// Whether a verb is KEY.
pub(crate) fn is_key(verb: Verb) -> bool
    ensures { result ≡ is_key verb }
{
    matches!(verb, Verb::Key)
}

/// A command that has no fields after it.
fn bare(command: Command, fields: &[u8]) -> Option<Command>
    ensures { result ≡ bare command (fields_of fields.now) }
{
    if has_no_field(fields) {
        Some(command)
    } else {
        None
    }
}

/// The command of a START.
fn start_command(fields: &[u8]) -> Option<Command>
    ensures { result ≡ verb_command verb.Start (fields_of fields.now) }
{
    address_operand(fields).map(Command::Start)
}

/// The command of a CELL, which names an erasable cell.
fn cell_command(fields: &[u8]) -> Option<Command>
    ensures { result ≡ verb_command verb.Cell (fields_of fields.now) }
{
    let (address, word) = word_operands(fields)?;
    (address < ERASABLE).then_some(Command::Cell { address, word })
}

/// The command of a PORT.
fn port_command(fields: &[u8]) -> Option<Command>
    ensures { result ≡ verb_command verb.Port (fields_of fields.now) }
{
    let (address, word) = word_operands(fields)?;
    Some(Command::Port { address, word })
}

/// The command of a SET.
fn set_command(fields: &[u8]) -> Option<Command>
    ensures { result ≡ verb_command verb.Set (fields_of fields.now) }
{
    let (address, word) = word_operands(fields)?;
    Some(Command::Set { address, word })
}

/// The command of a STEP.
fn step_command(fields: &[u8]) -> Option<Command>
    ensures { result ≡ verb_command verb.Step (fields_of fields.now) }
{
    count_operand(fields).map(Command::Step)
}

/// The command of a CYCLE.
fn cycle_command(fields: &[u8]) -> Option<Command>
    ensures { result ≡ verb_command verb.Cycle (fields_of fields.now) }
{
    count_operand(fields).map(Command::Cycle)
}

/// The command of a SHOW CELL.
fn show_cell(fields: &[u8]) -> Option<Command>
    ensures { result ≡ option_map ShowCell (address_operand (fields_of fields.now)) }
{
    address_operand(fields).map(Command::ShowCell)
}

/// The command of a SHOW OUT.
fn show_out(fields: &[u8]) -> Option<Command>
    ensures { result ≡ option_map ShowOut (address_operand (fields_of fields.now)) }
{
    address_operand(fields).map(Command::ShowOut)
}

/// The command of a SHOW with this subject.
fn subject_command(subject: Subject, fields: &[u8]) -> Option<Command>
    ensures { result ≡ subject_command (Some subject) (fields_of fields.now) }
{
    match subject {
        Subject::Reg => bare(Command::ShowReg, fields),
        Subject::Cell => show_cell(fields),
        Subject::Out => show_out(fields),
        Subject::Deda => bare(Command::ShowDeda, fields),
    }
}

/// The command of a SHOW.
#[tactic(auto, using(crate::proofs::FieldLemmas::show_cut))]
fn show_command(fields: &[u8]) -> Option<Command>
    ensures { result ≡ show_command (fields_of fields.now) }
{
    let (name, behind) = split_field(fields);
    subject_command(subject_named(name)?, behind)
}

/// The command of a verb but KEY.
pub(crate) fn verb_command(verb: Verb, fields: &[u8]) -> Option<Command>
    ensures { result ≡ verb_command verb (fields_of fields.now) }
{
    match verb {
        Verb::Start => start_command(fields),
        Verb::Cell => cell_command(fields),
        Verb::Port => port_command(fields),
        Verb::Step => step_command(fields),
        Verb::Pulse => bare(Command::Pulse, fields),
        Verb::Set => set_command(fields),
        Verb::Key => None,
        Verb::Feed => bare(Command::Feed, fields),
        Verb::Cycle => cycle_command(fields),
        Verb::Show => show_command(fields),
    }
}
