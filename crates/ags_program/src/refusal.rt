//! Why a file is refused.

ghost use Rattle.std.specs.Prelude.{◌≡◌, ◌++◌, IfOk, IfSome, codes};
ghost use Rattle.std.specs.String.{string_bytes};
ghost use Rattle.ags_program.specs.Views.{line_of, status_of};

use crate::status::Status;
use ags_asm::SourceError;
use ags_cert::CertError;
use ags_edits::EditsError;
use ags_files::RefusesBy;
use ags_listing::ListError;
use ags_machfile::MachError;
use ags_script::ScriptError;
use ags_tags::ScaleError;
use ags_times::BudgetError;
use std::alloc::{AllocError, Global};
use std::fmt;

/// Why a file is refused: the first fault of its text.
#[derive(Clone, Copy)]
pub enum Refusal {
    /// A machine file fails this test.
    Machine(MachError),
    /// A source has this fault.
    Source(SourceError),
    /// A listing has this fault.
    Listing(ListError),
    /// A certificate has this fault.
    Certificate(CertError),
    /// A script has this fault.
    Script(ScriptError),
    /// A text of times has this fault.
    Times(BudgetError),
    /// A text of scales has this fault.
    Scales(ScaleError),
    /// A text of edits has this fault.
    Edits(EditsError),
}

/// A fault as it is printed, with a line feed.
fn printed_line<E: fmt::Display>(alloc: Global, error: &E) -> Result<String, AllocError>
    ensures { IfOk result (λ line. IfSome (E.output error.now) (λ text. string_bytes line ≡ text ++ codes "\n")) }
{
    format!(in alloc; "{error}\n")
}

impl Refusal {
    /// Its status.
    pub fn status(&self) -> Status
        ensures { result ≡ status_of self.now }
    {
        match self {
            Refusal::Machine(_) => Status::BadMachine,
            Refusal::Source(_) => Status::BadSource,
            Refusal::Certificate(_) => Status::BadCert,
            Refusal::Listing(_) => Status::BadText,
            Refusal::Script(_) => Status::BadText,
            Refusal::Times(_) => Status::BadText,
            Refusal::Scales(_) => Status::BadText,
            Refusal::Edits(_) => Status::BadText,
        }
    }

    /// Its line.
    pub fn line(&self, alloc: Global) -> Result<String, AllocError>
        ensures { IfOk result (λ line. string_bytes line ≡ line_of self.now) }
    {
        match *self {
            Refusal::Machine(error) => printed_line(alloc, &error),
            Refusal::Source(error) => printed_line(alloc, &error),
            Refusal::Listing(error) => printed_line(alloc, &error),
            Refusal::Certificate(error) => printed_line(alloc, &error),
            Refusal::Script(error) => printed_line(alloc, &error),
            Refusal::Times(error) => printed_line(alloc, &error),
            Refusal::Scales(error) => printed_line(alloc, &error),
            Refusal::Edits(error) => printed_line(alloc, &error),
        }
    }
}

impl RefusesBy<MachError> for Refusal {
    ghost use Rattle.ags_program.specs.declared.refusal.Refusal.TheVariants as refusal;

    ghost refusal_of = { refusal.Machine };

    fn refusal_of(fault: MachError) -> Refusal {
        Refusal::Machine(fault)
    }
}

impl RefusesBy<SourceError> for Refusal {
    ghost use Rattle.ags_program.specs.declared.refusal.Refusal.TheVariants as refusal;

    ghost refusal_of = { refusal.Source };

    fn refusal_of(fault: SourceError) -> Refusal {
        Refusal::Source(fault)
    }
}

impl RefusesBy<ListError> for Refusal {
    ghost use Rattle.ags_program.specs.declared.refusal.Refusal.TheVariants as refusal;

    ghost refusal_of = { refusal.Listing };

    fn refusal_of(fault: ListError) -> Refusal {
        Refusal::Listing(fault)
    }
}

impl RefusesBy<CertError> for Refusal {
    ghost use Rattle.ags_program.specs.declared.refusal.Refusal.TheVariants as refusal;

    ghost refusal_of = { refusal.Certificate };

    fn refusal_of(fault: CertError) -> Refusal {
        Refusal::Certificate(fault)
    }
}

impl RefusesBy<ScriptError> for Refusal {
    ghost use Rattle.ags_program.specs.declared.refusal.Refusal.TheVariants as refusal;

    ghost refusal_of = { refusal.Script };

    fn refusal_of(fault: ScriptError) -> Refusal {
        Refusal::Script(fault)
    }
}

impl RefusesBy<BudgetError> for Refusal {
    ghost use Rattle.ags_program.specs.declared.refusal.Refusal.TheVariants as refusal;

    ghost refusal_of = { refusal.Times };

    fn refusal_of(fault: BudgetError) -> Refusal {
        Refusal::Times(fault)
    }
}

impl RefusesBy<ScaleError> for Refusal {
    ghost use Rattle.ags_program.specs.declared.refusal.Refusal.TheVariants as refusal;

    ghost refusal_of = { refusal.Scales };

    fn refusal_of(fault: ScaleError) -> Refusal {
        Refusal::Scales(fault)
    }
}

impl RefusesBy<EditsError> for Refusal {
    ghost use Rattle.ags_program.specs.declared.refusal.Refusal.TheVariants as refusal;

    ghost refusal_of = { refusal.Edits };

    fn refusal_of(fault: EditsError) -> Refusal {
        Refusal::Edits(fault)
    }
}
