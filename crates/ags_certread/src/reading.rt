//! The reader of certificates whose text is at hand.

ghost use Rattle.std.specs.Prelude.{◌≤◌, length, IfOk, IfErr};
ghost use Rattle.ags_certtext.specs.Text.{IsCertOf, IsRefused};
ghost use Rattle.ags_certread.specs.Length.{certificate_limit};

use crate::cert_readers::CertReader;
use ags_certtext::CertError;
use ags_certtype::Cert;
use ags_outside::Taker;
use ags_ports::Ports;
use std::alloc::Global;

/// The most bytes of a certificate's text.
pub const CERT_LIMIT: usize = 67_108_864;

/// Reads a certificate of at most 67,108,864 bytes for a machine's registers: the certificate that its lines state, or its first fault
/// (docs/CERTIFICATE.md, Faults). A line's number counts every line, skipped ones too; where END is missing it is the line after the
/// last. On one line the fault of the least number comes. `NoMemory` may come at any text, and says nothing of it. It is a reader of
/// pieces that is given one.
pub fn read(alloc: Global, bytes: &[u8], ports: &Ports) -> Result<Cert, CertError>
    requires { length bytes.now ≤ certificate_limit }
    // The text is a certificate without a fault, and this is the certificate; or its first fault is this one.
    ensures read { IfOk result (λ cert. IsCertOf ports.now bytes.now cert) }
    ensures refused { IfErr result (IsRefused ports.now bytes.now) }
{
    match CertReader::new(alloc, ports) {
        Ok(reader) => {
            let mut reader = reader;
            match reader.take(bytes) {
                Ok(()) => reader.finish(),
                Err(_) => Err(CertError::NoMemory),
            }
        }
        Err(_) => Err(CertError::NoMemory),
    }
}
