//! Certificates, read as their pieces come, so that no text of one is kept.

ghost use Rattle.std.specs.Prelude.{◌≡◌, ◌≤◌, ℕ, List, [], IfOk, IfErr, length};
ghost use Rattle.ags_cert.specs.Length.{certificate_limit};
ghost use Rattle.ags_cert.specs.Pieces.{took_cert};
ghost use Rattle.ags_files.specs.Reading.{ReadsBytes, ReadsFile, certificate_reading};
ghost use Rattle.ags_outside.specs.Count.{HasCause};
ghost use Rattle.ags_plan.specs.Loading.{is_absence, is_read_fault};

use ags_cert::{CERT_LIMIT, Cert, CertError, CertReader, read};
use ags_outside::Shelf;
use ags_plan::{Unloaded, fetch_file_into};
use ags_ports::Machine;
use std::alloc::Global;

/// Reads a certificate of bytes at hand, for a machine.
pub fn read_certificate<'a>(
    alloc: Global,
    machine: &Machine,
    bytes: &[u8],
) -> Result<Cert, Unloaded<'a, CertError>>
    requires { length bytes.now ≤ certificate_limit }
    ensures { ReadsBytes (certificate_reading machine.now) bytes.now result }
{
    match read(alloc, bytes, &machine.ports) {
        Ok(cert) => Ok(cert),
        Err(CertError::NoMemory) => Err(Unloaded::NoMemory),
        Err(error) => Err(Unloaded::Refused(error)),
    }
}

/// A reader of certificates for a machine's registers.
fn certificate_reader<'a>(
    alloc: Global,
    machine: &Machine,
) -> Result<CertReader, Unloaded<'a, CertError>>
    ensures took { IfOk result (λ reader. took_cert reader []) }
    ensures ports { IfOk result (λ reader. reader.ports ≡ machine.now.ports) }
    ensures unread { IfErr result (λ why. why ≡ Unloaded.NoMemory) }
{
    match CertReader::new(alloc, &machine.ports) {
        Ok(reader) => Ok(reader),
        Err(_) => Err(Unloaded::NoMemory),
    }
}

/// What a reader for a machine's registers answers for the bytes that it took.
fn finish_certificate<'a>(
    machine: &Machine,
    reader: CertReader,
) -> Result<Cert, Unloaded<'a, CertError>>
    requires { reader.ports ≡ machine.now.ports }
    ensures { (bytes : List ℕ) → took_cert reader bytes → length bytes ≤ certificate_limit → ReadsBytes (certificate_reading machine.now) bytes result }
{
    match reader.finish() {
        Ok(cert) => Ok(cert),
        Err(CertError::NoMemory) => Err(Unloaded::NoMemory),
        Err(error) => Err(Unloaded::Refused(error)),
    }
}

/// Loads the certificate of a name, for a machine.
pub fn load_certificate<'a, S: Shelf>(
    alloc: Global,
    machine: &Machine,
    name: &'a str,
    shelf: &mut S,
) -> Result<Cert, Unloaded<'a, CertError>>
    ensures same { S.told shelf.new ≡ S.told shelf.old }
    ensures loads { ReadsFile (certificate_reading machine.now) (S.told shelf.old name.entry.now) name.entry.now result }
    ensures faults { HasCause (S.faults shelf.old) (S.faults shelf.new) (is_read_fault result) }
    ensures absences { HasCause (S.absences shelf.old) (S.absences shelf.new) (is_absence result) }
{
    let mut reader = certificate_reader(alloc, machine)?;
    fetch_file_into(shelf, name, CERT_LIMIT as u64, &mut reader)?;
    finish_certificate(machine, reader)
}
