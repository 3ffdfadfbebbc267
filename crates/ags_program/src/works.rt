//! What is loaded for a command line, and then done.

ghost use Rattle.std.specs.Prelude.{◌≡◌};

use ags_asm::Assembled;
use ags_budget::Budget;
use ags_cert::Cert;
use ags_command::SourceText;
use ags_edits::Edit;
use ags_files::SourceFile;
use ags_image::Image;
use ags_ports::Machine;
use ags_scale::Scales;
use ags_script::Script;

/// A source and a certificate that were read for a machine.
pub struct ReadPair {
    /// The machine.
    pub machine: Machine,
    /// The source.
    pub source: SourceFile,
    /// The certificate.
    pub cert: Cert,
}

impl ReadPair {
    /// The machine, the source and the certificate.
    pub fn into_parts(self) -> (Machine, SourceFile, Cert)
        ensures machine { result.0 ≡ self.machine }
        ensures source { result.1 ≡ self.source }
        ensures cert { result.2 ≡ self.cert }
    {
        let ReadPair {
            machine,
            source,
            cert,
        } = self;
        (machine, source, cert)
    }
}

// Written and not derived, so that whoever lets a pair go calls this, and has none of its parts to follow.
impl Drop for ReadPair {
    fn drop(self) {
        let ReadPair {
            machine: _,
            source: _,
            cert: _,
        } = self;
    }
}

/// What stands with the verdict of a certificate for a source's words.
#[derive(Drop)]
pub enum Sequel {
    /// The listing of the source stands before it.
    ListingBefore,
    /// After it, where it certifies, stands the play of a script, with the certificate as its guard.
    PlayBehind(Script),
    /// The counts of the workload of this size stand in its place, where it certifies.
    CountsInstead(u32),
    /// After it, where it certifies, stands what comes of the bounds of its rows on order time.
    BudgetBehind(Budget),
    /// After it, where it certifies, stands what comes of scales.
    ScalesBehind(Scales),
    /// After it, whatever it is, stands what comes of edits.
    EditsBehind(Vec<Edit>),
}

/// What is loaded for a command line.
#[derive(Drop)]
pub enum Work {
    /// The arguments are none of the forms.
    NoForm,
    /// A text of a source is written.
    WriteText {
        /// The text.
        text: SourceText,
        /// The source.
        source: SourceFile,
    },
    /// The words of a source are compared with those of a listing.
    CompareImages {
        /// What was made of the source.
        made: Assembled,
        /// The image of the listing.
        listed: Image,
    },
    /// A certificate is judged for a source's words.
    JudgePair {
        /// The source and the certificate.
        pair: ReadPair,
        /// What stands with the verdict.
        sequel: Sequel,
    },
    /// A script is played on a machine that begins with a source's words.
    PlayScript {
        /// The machine.
        machine: Machine,
        /// What was made of the source.
        made: Assembled,
        /// The script.
        script: Script,
    },
}
