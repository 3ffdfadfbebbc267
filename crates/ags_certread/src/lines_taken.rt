//! One line of a certificate after the other.

ghost use Rattle.std.specs.Prelude.{◌≡◌, List, Some, IfOk, IfErr};
ghost use Rattle.ags_certtext.specs.declared.statements.Statement.{Statement};
ghost use Rattle.ags_frame.specs.Reading.{Opening as OpenedBy};
ghost use Rattle.ags_certtext.specs.Reading.{Reading, IsFirstReading};
ghost use Rattle.ags_certtext.specs.Statement.{IsStatement};
ghost use Rattle.ags_certread.specs.Before.{Stands};
ghost use Rattle.ags_certread.specs.Gathering.{gathering_of};
ghost use Rattle.ags_certread.specs.LineTaken.{TakesLine, TakesStatement, TellsFault, TellsStatementFault, opening_fault};

use crate::gatherer::Gatherer;
use ags_certtext::{CertError, CertKind, CertLines, Statement, read_first_line};
use ags_frame::{Line, Opening, read_line};
use ags_ports::Ports;
use std::alloc::Global;

/// A line that is none of the forms, or stands out of order, or is missing.
pub(crate) fn bad_line(line: u32) -> CertError
    ensures { result ≡ CertError.At line CertKind.BadLine }
{
    CertError::At {
        line,
        kind: CertKind::BadLine,
    }
}

/// The version that a certificate's first line opens, or the line's fault.
pub(crate) fn opened_version(line: &[u8]) -> Result<u32, CertKind>
    ensures version { IfOk result (λ version. IsFirstReading line.now (OpenedBy version)) }
    ensures faulty { IfErr result (λ kind. (reading : Reading) × IsFirstReading line.now reading × (opening_fault reading ≡ Some kind)) }
{
    match read_first_line(line) {
        Opening::Version(version) => Ok(version),
        Opening::Another => Err(CertKind::Version),
        Opening::Malformed => Err(CertKind::BadLine),
    }
}

impl Gatherer {
    /// Takes a statement that stands on a line.
    fn take_at(
        &mut self,
        alloc: Global,
        ports: &Ports,
        line: u32,
        statement: &Statement,
    ) -> Result<(), CertError>
        requires stands { (before : List Statement) × Stands before (gathering_of self.old) }
        requires statement { IsStatement statement.now }
        ensures taken { IfOk result (λ _. TakesStatement ports.now (gathering_of self.old) statement.now (gathering_of self.new)) }
        ensures faulty { IfErr result (TellsStatementFault ports.now (gathering_of self.old) statement.now line) }
    {
        match self.take(alloc, ports, statement)? {
            Some(kind) => Err(CertError::At { line, kind }),
            None => Ok(()),
        }
    }

    /// Takes a further line.
    pub(crate) fn take_line(
        &mut self,
        alloc: Global,
        ports: &Ports,
        line: u32,
        bytes: &[u8],
    ) -> Result<(), CertError>
        requires { (before : List Statement) × Stands before (gathering_of self.old) }
        ensures fine { IfOk result (λ _. TakesLine ports.now (gathering_of self.old) bytes.now (gathering_of self.new)) }
        ensures faulty { IfErr result (TellsFault ports.now line (gathering_of self.old) bytes.now) }
    {
        match read_line::<CertLines>(bytes) {
            Line::Stated(statement) => self.take_at(alloc, ports, line, &statement),
            Line::Skipped => Ok(()),
            Line::Malformed => Err(bad_line(line)),
        }
    }
}
