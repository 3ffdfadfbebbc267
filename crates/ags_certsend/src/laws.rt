//! The laws of what is written: what its lines say, and that it reads back. After each is a lemma of `proofs/`.

ghost use Rattle.std.specs.Prelude.{◌∷◌, ◌++◌, [], map};
ghost use Rattle.ags_text.specs.Line.{lines_of};
ghost use Rattle.ags_domain.specs.Value.{value_meaning};
ghost use Rattle.ags_ports.specs.declared.machines.Machine.{Machine};
ghost use Rattle.ags_safe.specs.Certificate.{Suits};
ghost use Rattle.ags_certtype.specs.Cert.{Stated, IsCert, certificate_of};
ghost use Rattle.ags_frame.specs.Reading.{Opening, Stated as StatedBy, Ended};
ghost use Rattle.ags_certtext.specs.Reading.{AreReadings};
ghost use Rattle.ags_certtext.specs.Text.{IsCertOf};
ghost use Rattle.ags_certsend.specs.CertText.{statements_of, text_version, cert_text};

/// The lines of what is written of a certificate are read as what it states, line by line: each is a spelling of at most 512 bytes.
/// The first opens version 2 exactly where some row has a link, and else version 1.
pub fn sent_lines_are_read()
    ensures { (cert : Stated) → IsCert cert
        → AreReadings (lines_of (cert_text cert)) (Opening (text_version cert) ∷ (map StatedBy (statements_of cert) ++ Ended ∷ [])) }
{}

/// What is written of a certificate reads back as that certificate, for the registers of each machine that it suits.
pub fn sent_certificate_reads_back()
    ensures { (machine : Machine) (cert : Stated) → IsCert cert → Suits value_meaning machine (certificate_of cert)
        → IsCertOf machine.ports (cert_text cert) cert }
{}
