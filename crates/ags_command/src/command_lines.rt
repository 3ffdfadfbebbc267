//! What the arguments of a command line ask for.

ghost use Rattle.std.specs.Prelude.{◌≡◌, map};
ghost use Rattle.std.specs.Option.{option_map};
ghost use Rattle.std.specs.String.{string_bytes};
ghost use Rattle.ags_command.specs.Command as asked;
ghost use Rattle.ags_command.specs.Views.{command_view, line_view};

use crate::source_texts::SourceText;

/// What is done (README, Commands).
#[derive(Clone, Copy)]
pub enum Command<'a> {
    /// A text of a source.
    Write {
        /// The text.
        text: SourceText,
        /// The name of the source.
        source: &'a str,
    },
    /// Whether the words of a source are those of a listing.
    Compare {
        /// The name of the source.
        source: &'a str,
        /// The name of the listing.
        listing: &'a str,
    },
    /// Whether a certificate is accepted for the words of a source.
    Certify {
        /// The name of the source.
        source: &'a str,
        /// The name of the certificate.
        certificate: &'a str,
    },
    /// What a script shows of the machine that begins with a source's words.
    Run {
        /// The name of the source.
        source: &'a str,
        /// The name of the script.
        script: &'a str,
    },
    /// What a script shows of that machine under a certificate as its guard, where it is accepted for those words.
    Guard {
        /// The name of the source.
        source: &'a str,
        /// The name of the script.
        script: &'a str,
        /// The name of the certificate.
        certificate: &'a str,
    },
    /// Whether bounds on order time are kept, where a certificate is accepted for the words of a source.
    Budget {
        /// The name of the source.
        source: &'a str,
        /// The name of the certificate.
        certificate: &'a str,
        /// The name of the text of times.
        times: &'a str,
    },
    /// Whether scales agree, where a certificate is accepted for the words of a source.
    Scales {
        /// The name of the source.
        source: &'a str,
        /// The name of the certificate.
        certificate: &'a str,
        /// The name of the text of scales.
        scales: &'a str,
    },
    /// What comes of edits of a certificate and of the words of a source.
    Edits {
        /// The name of the source.
        source: &'a str,
        /// The name of the certificate.
        certificate: &'a str,
        /// The name of the text of edits.
        edits: &'a str,
    },
}

/// What a command line asks for.
#[derive(Clone, Copy)]
pub struct CommandLine<'a> {
    /// The command.
    pub command: Command<'a>,
    /// The name of the file of its machine, and nothing where that is the standard one.
    pub machine: Option<&'a str>,
}

/// A command with what stands after its names: nothing, or a machine file's name.
fn line_with<'a>(command: Command<'a>, behind: &'a [String]) -> Option<CommandLine<'a>>
    ensures { option_map line_view result ≡ asked.line_with (command_view command.entry) (map string_bytes behind.entry.now) }
{
    match behind {
        [] => Some(CommandLine {
            command,
            machine: None,
        }),
        [machine] => Some(CommandLine {
            command,
            machine: Some(machine.as_str()),
        }),
        _ => None,
    }
}

/// What the verb of a source's text and these names ask for.
fn read_write(text: SourceText, names: &[String]) -> Option<CommandLine<'_>>
    ensures { option_map line_view result ≡ asked.one_name (asked.Write text) (map string_bytes names.now) }
{
    match names {
        [source, behind @ ..] => line_with(
            Command::Write {
                text,
                source: source.as_str(),
            },
            behind,
        ),
        _ => None,
    }
}

/// What `compare` and these names ask for.
fn read_compare(names: &[String]) -> Option<CommandLine<'_>>
    ensures { option_map line_view result ≡ asked.two_names asked.Compare (map string_bytes names.now) }
{
    match names {
        [source, listing, behind @ ..] => line_with(
            Command::Compare {
                source: source.as_str(),
                listing: listing.as_str(),
            },
            behind,
        ),
        _ => None,
    }
}

/// What `certify` and these names ask for.
fn read_certify(names: &[String]) -> Option<CommandLine<'_>>
    ensures { option_map line_view result ≡ asked.two_names asked.Certify (map string_bytes names.now) }
{
    match names {
        [source, certificate, behind @ ..] => line_with(
            Command::Certify {
                source: source.as_str(),
                certificate: certificate.as_str(),
            },
            behind,
        ),
        _ => None,
    }
}

/// What `run` and these names ask for.
fn read_run(names: &[String]) -> Option<CommandLine<'_>>
    ensures { option_map line_view result ≡ asked.two_names asked.Run (map string_bytes names.now) }
{
    match names {
        [source, script, behind @ ..] => line_with(
            Command::Run {
                source: source.as_str(),
                script: script.as_str(),
            },
            behind,
        ),
        _ => None,
    }
}

/// What `guard` and these names ask for.
fn read_guard(names: &[String]) -> Option<CommandLine<'_>>
    ensures { option_map line_view result ≡ asked.three_names asked.Guard (map string_bytes names.now) }
{
    match names {
        [source, script, certificate, behind @ ..] => line_with(
            Command::Guard {
                source: source.as_str(),
                script: script.as_str(),
                certificate: certificate.as_str(),
            },
            behind,
        ),
        _ => None,
    }
}

/// What `budget` and these names ask for.
fn read_budget(names: &[String]) -> Option<CommandLine<'_>>
    ensures { option_map line_view result ≡ asked.three_names asked.Budget (map string_bytes names.now) }
{
    match names {
        [source, certificate, times, behind @ ..] => line_with(
            Command::Budget {
                source: source.as_str(),
                certificate: certificate.as_str(),
                times: times.as_str(),
            },
            behind,
        ),
        _ => None,
    }
}

/// What `scales` and these names ask for.
fn read_scales(names: &[String]) -> Option<CommandLine<'_>>
    ensures { option_map line_view result ≡ asked.three_names asked.Scales (map string_bytes names.now) }
{
    match names {
        [source, certificate, scales, behind @ ..] => line_with(
            Command::Scales {
                source: source.as_str(),
                certificate: certificate.as_str(),
                scales: scales.as_str(),
            },
            behind,
        ),
        _ => None,
    }
}

/// What `edits` and these names ask for.
fn read_edits(names: &[String]) -> Option<CommandLine<'_>>
    ensures { option_map line_view result ≡ asked.three_names asked.Edits (map string_bytes names.now) }
{
    match names {
        [source, certificate, edits, behind @ ..] => line_with(
            Command::Edits {
                source: source.as_str(),
                certificate: certificate.as_str(),
                edits: edits.as_str(),
            },
            behind,
        ),
        _ => None,
    }
}

/// What a verb and the names after it ask for.
pub(crate) fn read_names<'a>(verb: &str, names: &'a [String]) -> Option<CommandLine<'a>>
    ensures { option_map line_view result ≡ asked.line_named asked.forms verb.now (map string_bytes names.entry.now) }
{
    match verb {
        "assemble" => read_write(SourceText::Listing, names),
        "compare" => read_compare(names),
        "tape" => read_write(SourceText::Tape, names),
        "xref" => read_write(SourceText::CrossReference, names),
        "certify" => read_certify(names),
        "run" => read_run(names),
        "guard" => read_guard(names),
        "budget" => read_budget(names),
        "scales" => read_scales(names),
        "edits" => read_edits(names),
        _ => None,
    }
}

/// What a command line asks for, by its arguments.
pub fn read_line(arguments: &[String]) -> Option<CommandLine<'_>>
    ensures { option_map line_view result ≡ asked.line_of (map string_bytes arguments.now) }
{
    match arguments {
        [verb, names @ ..] => read_names(verb.as_str(), names),
        [] => None,
    }
}
