//! Why a file is refused.

ghost use Rattle.std.specs.Prelude.{◌≡◌, IfOk};
ghost use Rattle.std.specs.String.{string_bytes};
ghost use Rattle.ags_bench.specs.Views.{line_of, status_of};

use ags_asm::SourceError;
use ags_cert::CertError;
use ags_files::RefusesBy;
use ags_machfile::MachError;
use ags_program::Status;
use ags_script::ScriptError;
use std::alloc::{AllocError, Global};

/// Why a file is refused: the first fault of its text.
#[derive(Clone, Copy)]
pub(crate) enum Refusal {
    /// A machine file fails this test.
    Machine(MachError),
    /// A source has this fault.
    Source(SourceError),
    /// A certificate has this fault.
    Certificate(CertError),
    /// A bench script has this fault.
    Script(ScriptError),
}

impl Refusal {
    /// Its status.
    pub(crate) fn status(&self) -> Status
        ensures { result ≡ status_of self.now }
    {
        match self {
            Refusal::Machine(_) => Status::BadMachine,
            Refusal::Source(_) => Status::BadSource,
            Refusal::Certificate(_) => Status::BadCert,
            Refusal::Script(_) => Status::BadText,
        }
    }

    /// Its line.
    pub(crate) fn line(&self, alloc: Global) -> Result<String, AllocError>
        ensures { IfOk result (λ line. string_bytes line ≡ line_of self.now) }
    {
        match *self {
            Refusal::Machine(error) => format!(in alloc; "{error}\n"),
            Refusal::Source(error) => format!(in alloc; "{error}\n"),
            Refusal::Certificate(error) => format!(in alloc; "{error}\n"),
            Refusal::Script(error) => format!(in alloc; "{error}\n"),
        }
    }
}

impl RefusesBy<MachError> for Refusal {
    ghost use Rattle.ags_bench.specs.declared.refusal.Refusal.TheVariants as refusal;

    ghost refusal_of = { refusal.Machine };

    fn refusal_of(fault: MachError) -> Refusal {
        Refusal::Machine(fault)
    }
}

impl RefusesBy<SourceError> for Refusal {
    ghost use Rattle.ags_bench.specs.declared.refusal.Refusal.TheVariants as refusal;

    ghost refusal_of = { refusal.Source };

    fn refusal_of(fault: SourceError) -> Refusal {
        Refusal::Source(fault)
    }
}

impl RefusesBy<CertError> for Refusal {
    ghost use Rattle.ags_bench.specs.declared.refusal.Refusal.TheVariants as refusal;

    ghost refusal_of = { refusal.Certificate };

    fn refusal_of(fault: CertError) -> Refusal {
        Refusal::Certificate(fault)
    }
}

impl RefusesBy<ScriptError> for Refusal {
    ghost use Rattle.ags_bench.specs.declared.refusal.Refusal.TheVariants as refusal;

    ghost refusal_of = { refusal.Script };

    fn refusal_of(fault: ScriptError) -> Refusal {
        Refusal::Script(fault)
    }
}
