//! The lines that name a device.

ghost use Rattle.std.specs.Prelude.{◌≡◌, IfSome, Some};
ghost use Rattle.ags_benchscript.specs.declared.verbs.Verb.{Verb};
ghost use Rattle.ags_benchscript.specs.Reading.{verb_name, verb_named, verb_command, numbered_command, device_command};
ghost use Rattle.ags_script.specs.Operand.{fields_of};

use crate::commands::BenchCommand;
use ags_script::count_operand;
use ags_text::split_field;

/// The first field of a line that names a device.
#[derive(Clone, Copy)]
pub(crate) enum Verb {
    /// FEED.
    Feed,
    /// DETACH.
    Detach,
}

/// The verb of a name, letter for letter.
fn verb_of(text: &[u8]) -> Option<Verb>
    ensures found { IfSome result (λ verb. verb_name verb ≡ text.now) }
    ensures only { (verb : Verb) → verb_name verb ≡ text.now → result ≡ Some verb }
{
    match text {
        b"FEED" => Some(Verb::Feed),
        b"DETACH" => Some(Verb::Detach),
        _ => None,
    }
}

/// The verb of a name, and nothing for a text that is none.
fn verb_named(text: &[u8]) -> Option<Verb>
    ensures { result ≡ verb_named text.now }
{
    verb_of(text)
}

/// What a verb asks for of the device with a number.
fn verb_command(verb: Verb, number: u32) -> BenchCommand
    ensures { result ≡ verb_command verb number }
{
    match verb {
        Verb::Feed => BenchCommand::Feed(number),
        Verb::Detach => BenchCommand::Detach(number),
    }
}

/// The command of a verb and the fields after it.
fn numbered_command(verb: Verb, fields: &[u8]) -> Option<BenchCommand>
    ensures { result ≡ numbered_command (Some verb) (fields_of fields.now) }
{
    Some(verb_command(verb, count_operand(fields)?))
}

/// The command of a line that names a device, and nothing for any other line.
#[tactic(auto, unfolding(crate::specs::Reading::device_command))]
pub(crate) fn device_command(line: &[u8]) -> Option<BenchCommand>
    ensures { result ≡ device_command line.now }
{
    let (name, fields) = split_field(line);
    numbered_command(verb_named(name)?, fields)
}
