//! What the words of a command line ask for.

ghost use Rattle.std.specs.Prelude.{◌≡◌, map};
ghost use Rattle.std.specs.Option.{option_map};
ghost use Rattle.std.specs.String.{string_bytes};
ghost use Rattle.ags_bench.specs.Words.{asked_of, asked_view};

/// What is asked for, by the names of the files.
#[derive(Clone, Copy)]
pub(crate) struct Asked<'a> {
    /// The name of the source.
    pub(crate) source: &'a str,
    /// The name of the certificate.
    pub(crate) certificate: &'a str,
    /// The name of the bench script.
    pub(crate) script: &'a str,
    /// The name of the machine file, and nothing for the standard machine.
    pub(crate) machine: Option<&'a str>,
}

/// What the words of a command line ask for, where they are of the form `S C P [M]`.
pub(crate) fn read_words(words: &[String]) -> Option<Asked<'_>>
    ensures { option_map asked_view result ≡ asked_of (map string_bytes words.now) }
{
    match words {
        [source, certificate, script] => Some(Asked {
            source: source.as_str(),
            certificate: certificate.as_str(),
            script: script.as_str(),
            machine: None,
        }),
        [source, certificate, script, machine] => Some(Asked {
            source: source.as_str(),
            certificate: certificate.as_str(),
            script: script.as_str(),
            machine: Some(machine.as_str()),
        }),
        _ => None,
    }
}
