//! What the arguments of a command line ask for: a command on a machine, or a workload.

ghost use Rattle.std.specs.Prelude.{◌≡◌, ◌==◌, IfSome, map, slice_index};
ghost use Rattle.std.specs.Option.{option_map};
ghost use Rattle.std.specs.String.{string_bytes};
ghost use Rattle.ags_command.specs.Command as asked;
ghost use Rattle.ags_command.specs.Views.{asked_view, line_view};

use crate::command_lines::{CommandLine, read_names};
use ags_text::read_decimal;

/// The greatest size of a workload.
const GREATEST_SIZE: u32 = 400;

/// What is asked for (README, Commands).
#[derive(Clone, Copy)]
pub enum Asked<'a> {
    /// A command on a machine.
    OnMachine(CommandLine<'a>),
    /// The workload of this size, on the standard machine.
    Workload(u32),
}

/// Whether a text begins with a zero.
fn begins_with_zero(text: &[u8]) -> bool
    ensures { result ≡ (slice_index text.now 0 == 48) }
{
    match text {
        [first, ..] => *first == b'0',
        [] => false,
    }
}

/// The size that a text writes, in decimal digits without a leading zero.
fn read_size(text: &str) -> Option<u32>
    ensures { result ≡ asked.size_of text.now }
{
    let digits = text.as_bytes();
    if begins_with_zero(digits) {
        return None;
    }
    match read_decimal(digits) {
        Some(size) if 1 <= size && size <= GREATEST_SIZE => Some(size),
        _ => None,
    }
}

/// What a command line asks for, where there is one.
fn on_machine(line: Option<CommandLine<'_>>) -> Option<Asked<'_>>
    ensures { option_map asked_view result ≡ option_map asked.OnMachine (option_map line_view line.entry) }
{
    line.map(Asked::OnMachine)
}

/// What the names after the workload's verb ask for.
fn read_workload(names: &[String]) -> Option<Asked<'_>>
    ensures { option_map asked_view result ≡ asked.workload_of (map string_bytes names.now) }
{
    match names {
        [size] => Some(Asked::Workload(read_size(size.as_str())?)),
        _ => None,
    }
}

/// What a verb and the names after it ask for.
fn read_verb<'a>(verb: &str, names: &'a [String]) -> Option<Asked<'a>>
    ensures { option_map asked_view result ≡ asked.asked_named verb.now (map string_bytes names.entry.now) }
{
    match verb {
        "workload" => read_workload(names),
        _ => on_machine(read_names(verb, names)),
    }
}

/// What the arguments of a command line ask for.
fn read_form(arguments: &[String]) -> Option<Asked<'_>>
    ensures { option_map asked_view result ≡ asked.asked_of (map string_bytes arguments.now) }
{
    match arguments {
        [verb, names @ ..] => read_verb(verb.as_str(), names),
        [] => None,
    }
}

/// What the arguments of a command line ask for, and nothing where they are none of the forms. The size of a workload is from 1 to 400.
pub fn read_asked(arguments: &[String]) -> Option<Asked<'_>>
    ensures asked { option_map asked_view result ≡ asked.asked_of (map string_bytes arguments.now) }
    ensures can_be { IfSome result (λ it. asked.IsAsked (asked_view it)) }
{
    read_form(arguments)
}
