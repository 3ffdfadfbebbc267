//! The names of a command line, for a person who is told of its run.

ghost use Rattle.std.specs.Prelude.{◌≡◌, map};
ghost use Rattle.std.specs.Option.{option_map};
ghost use Rattle.std.specs.String.{string_bytes};
ghost use Rattle.ags_command.specs.Command.{line_of};
ghost use Rattle.ags_command.specs.Views.{command_view};
ghost use Rattle.ags_process.specs.Named.{certificate_in, certificate_named};

use ags_command::{Command, read_line};

/// The name of the certificate of a command, where it has one.
fn certificate_in(command: Command<'_>) -> Option<&str>
    ensures { option_map (λ name. name.now) result ≡ certificate_in (command_view command.entry) }
{
    match command {
        Command::Certify { certificate, .. }
        | Command::Guard { certificate, .. }
        | Command::Budget { certificate, .. }
        | Command::Scales { certificate, .. }
        | Command::Edits { certificate, .. } => Some(certificate),
        Command::Write { .. } | Command::Compare { .. } | Command::Run { .. } => None,
    }
}

/// The name of the certificate that arguments ask for, where they name one.
pub(crate) fn certificate_named(arguments: &[String]) -> Option<&str>
    ensures { option_map (λ name. name.now) result ≡ certificate_named (line_of (map string_bytes arguments.now)) }
{
    match read_line(arguments) {
        Some(line) => certificate_in(line.command),
        None => None,
    }
}
