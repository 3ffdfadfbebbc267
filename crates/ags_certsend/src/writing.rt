//! The writer of certificates.

ghost use Rattle.std.specs.Prelude.{◌≡◌, IfSome, OnOk, OnErr, is_some};
ghost use Rattle.std.specs.List.{flat_map};
ghost use Rattle.ags_domain.specs.Value.{value_meaning};
ghost use Rattle.ags_outside.specs.Count.{HasCause};
ghost use Rattle.ags_outside.specs.Send.{is_write_fault};
ghost use Rattle.ags_outside.specs.Sink.{appended, WroteFront};
ghost use Rattle.ags_ports.specs.declared.machines.Machine.{Machine};
ghost use Rattle.ags_safe.specs.Certificate.{Suits};
ghost use Rattle.ags_certtype.specs.Cert.{certificate_of};
ghost use Rattle.ags_certtext.specs.Text.{IsCertOf};
ghost use Rattle.ags_certsend.specs.Spelled.{statement_line};
ghost use Rattle.ags_certsend.specs.CertText.{row_line_of, has_links, first_line, cert_text};
ghost use Rattle.ags_certsend.specs.Section.{section_text, cell_line, link_lines, row_lines, kinds_text};

use crate::laws::sent_certificate_reads_back;
use crate::sections::Section;
use crate::spelling::Spelled;
use ags_certtext::{Entry, RowLine, Statement, Table};
use ags_certtype::Cert;
use ags_domain::Value;
use ags_outside::{SendError, Sink, send};
use ags_row::{At, Link, Row};
use arrayvec::ArrayString;
use std::fmt::Write;

/// The most bytes of a line, its line feed included.
const MOST_BYTES: usize = 513;

/// The line of a statement, with its line feed. None is longer than there is room for.
fn line_of(statement: Statement) -> Option<ArrayString<MOST_BYTES>>
    ensures { IfSome result (λ line. line.bytes ≡ statement_line statement) }
{
    let mut line: ArrayString<MOST_BYTES> = ArrayString::new();
    let spelled = Spelled(statement);
    match write!(line, "{spelled}\n") {
        Ok(()) => Some(line),
        Err(_) => None,
    }
}

/// Sends the line of a statement, as one piece.
fn send_statement<K: Sink>(out: &mut K, statement: Statement) -> Result<(), SendError>
    ensures sent { OnOk result (K.told out.new ≡ appended (K.told out.old) (statement_line statement)) }
    ensures front { OnErr result (WroteFront (K.told out.old) (K.told out.new) (statement_line statement)) }
    ensures faults { HasCause (K.faults out.old) (K.faults out.new) (is_write_fault result) }
{
    let Some(line) = line_of(statement) else {
        return Err(SendError::NoMemory);
    };
    send(out, line.as_bytes())
}

/// Sends the lines of a kind that stand by address, in ascending order.
fn send_section<K: Sink>(out: &mut K, cert: &Cert, section: Section) -> Result<(), SendError>
    ensures sent { OnOk result (K.told out.new ≡ appended (K.told out.old) (section_text section cert.now)) }
    ensures front { OnErr result (WroteFront (K.told out.old) (K.told out.new) (section_text section cert.now)) }
    ensures faults { HasCause (K.faults out.old) (K.faults out.new) (is_write_fault result) }
{
    for address in 0..section.count() {
        let Some(statement) = section.statement(cert, address) else {
            continue;
        };
        send_statement(out, statement)?;
    }
    Ok(())
}

/// Sends the lines of a row's cells.
fn send_cells<K: Sink>(out: &mut K, cells: &[At<Value>]) -> Result<(), SendError>
    ensures sent { OnOk result (K.told out.new ≡ appended (K.told out.old) (flat_map cell_line cells.now)) }
    ensures front { OnErr result (WroteFront (K.told out.old) (K.told out.new) (flat_map cell_line cells.now)) }
    ensures faults { HasCause (K.faults out.old) (K.faults out.new) (is_write_fault result) }
{
    for cell in cells {
        let entry = Entry {
            address: cell.address,
            value: Some(cell.value),
        };
        send_statement(out, Statement::Entry(Table::At, entry))?;
    }
    Ok(())
}

/// Sends the line of a row's link, if it has one.
fn send_link<K: Sink>(out: &mut K, link: Option<Link>) -> Result<(), SendError>
    ensures sent { OnOk result (K.told out.new ≡ appended (K.told out.old) (link_lines link)) }
    ensures front { OnErr result (WroteFront (K.told out.old) (K.told out.new) (link_lines link)) }
    ensures faults { HasCause (K.faults out.old) (K.faults out.new) (is_write_fault result) }
{
    match link {
        Some(link) => send_statement(out, Statement::Linked(link)),
        None => Ok(()),
    }
}

/// What the line of a row states.
fn row_line(row: &Row<Value>) -> RowLine
    ensures { result ≡ row_line_of row.now }
{
    RowLine {
        location: row.location(),
        a: Some(row.a()),
        q: Some(row.q()),
        x: row.x(),
        v: row.v(),
    }
}

/// Sends the lines of a row: its own, those of its cells, and that of its link.
fn send_row<K: Sink>(out: &mut K, row: &Row<Value>) -> Result<(), SendError>
    ensures sent { OnOk result (K.told out.new ≡ appended (K.told out.old) (row_lines row.now)) }
    ensures front { OnErr result (WroteFront (K.told out.old) (K.told out.new) (row_lines row.now)) }
    ensures faults { HasCause (K.faults out.old) (K.faults out.new) (is_write_fault result) }
{
    send_statement(out, Statement::Row(row_line(row)))?;
    send_cells(out, row.at())?;
    send_link(out, row.link())
}

/// Sends the lines of rows, in their order.
fn send_rows<K: Sink>(out: &mut K, rows: &[Row<Value>]) -> Result<(), SendError>
    ensures sent { OnOk result (K.told out.new ≡ appended (K.told out.old) (flat_map row_lines rows.now)) }
    ensures front { OnErr result (WroteFront (K.told out.old) (K.told out.new) (flat_map row_lines rows.now)) }
    ensures faults { HasCause (K.faults out.old) (K.faults out.new) (is_write_fault result) }
{
    for row in rows {
        send_row(out, row)?;
    }
    Ok(())
}

/// Sends the lines of the kinds that stand by address.
fn send_kinds<K: Sink>(out: &mut K, cert: &Cert) -> Result<(), SendError>
    ensures sent { OnOk result (K.told out.new ≡ appended (K.told out.old) (kinds_text cert.now)) }
    ensures front { OnErr result (WroteFront (K.told out.old) (K.told out.new) (kinds_text cert.now)) }
    ensures faults { HasCause (K.faults out.old) (K.faults out.new) (is_write_fault result) }
{
    send_section(out, cert, Section::Cells)?;
    send_section(out, cert, Section::Starts)?;
    send_section(out, cert, Section::Inputs)?;
    send_section(out, cert, Section::Outputs)?;
    send_section(out, cert, Section::Places)
}

/// Whether a row has a link.
fn is_linked(row: &Row<Value>) -> bool
    ensures { result ≡ is_some row.now.link }
{
    row.link().is_some()
}

/// Whether some row has a link.
#[tactic(auto, unfolding(crate::specs::CertText::has_links))]
fn has_links(rows: &[Row<Value>]) -> bool
    ensures { result ≡ has_links rows.now }
{
    rows.iter().any(|row| is_linked(row))
}

/// The first line of a certificate's text, with its line feed.
fn first_line(cert: &Cert) -> &'static [u8]
    ensures { result.now ≡ first_line (has_links cert.now.rows) }
{
    if has_links(cert.rows()) {
        return b"AGSCERT 2\n";
    }
    b"AGSCERT 1\n"
}

/// Sends the text of a certificate, part by part.
fn send_parts<K: Sink>(cert: &Cert, out: &mut K) -> Result<(), SendError>
    ensures sent { OnOk result (K.told out.new ≡ appended (K.told out.old) (cert_text cert.now)) }
    ensures front { OnErr result (WroteFront (K.told out.old) (K.told out.new) (cert_text cert.now)) }
    ensures faults { HasCause (K.faults out.old) (K.faults out.new) (is_write_fault result) }
{
    send(out, first_line(cert))?;
    send_statement(out, Statement::Start(cert.start()))?;
    send_kinds(out, cert)?;
    send_rows(out, cert.rows())?;
    send_statement(out, Statement::End)
}

/// Sends the text of a certificate, a line at a time (docs/CERTIFICATE.md, Written certificates). After a refusal a front of the text
/// was sent. The text reads back as the certificate, for the registers of each machine that it suits.
pub fn send_cert<K: Sink>(cert: &Cert, out: &mut K) -> Result<(), SendError>
    ensures sent { OnOk result (K.told out.new ≡ appended (K.told out.old) (cert_text cert.now)) }
    ensures front { OnErr result (WroteFront (K.told out.old) (K.told out.new) (cert_text cert.now)) }
    ensures faults { HasCause (K.faults out.old) (K.faults out.new) (is_write_fault result) }
    ensures reads_back { (machine : Machine) → Suits value_meaning machine (certificate_of cert.now)
        → IsCertOf machine.ports (cert_text cert.now) cert.now }
{
    sent_certificate_reads_back();
    let _start = cert.start();
    send_parts(cert, out)
}
