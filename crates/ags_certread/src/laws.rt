//! What the definitions of a certificate's text mean, over every text. Each law is what a function that does nothing ensures, so that it
//! is proved with the crate.

ghost use Rattle.std.specs.Prelude.{◌≡◌, ◌⊎◌, ℕ, List, All, None};
ghost use Rattle.ags_text.specs.Line.{lines_of};
ghost use Rattle.ags_domain.specs.Value.{value_meaning};
ghost use Rattle.ags_ports.specs.Port.{Registers};
ghost use Rattle.ags_ports.specs.declared.machines.Machine.{Machine};
ghost use Rattle.ags_safe.specs.Certificate.{Suits};
ghost use Rattle.ags_certtype.specs.Cert.{Stated, certificate_of};
ghost use Rattle.ags_certtext.specs.declared.cert_error.CertKind.{CertKind};
ghost use Rattle.ags_certtext.specs.Text.{IsCertOf, IsFaultyCert};
ghost use Rattle.ags_certread.specs.Version.{OpensFirstVersion};

/// A certificate that was read for a machine's registers suits the machine: an address with a limit other than the full one has a
/// register, and the limit of a register that holds its word once holds 0.
pub fn read_certificates_suit()
    ensures { (machine : Machine) (text : List ℕ) (cert : Stated) → IsCertOf machine.ports text cert → Suits value_meaning machine (certificate_of cert) }
{}

/// A text means something for a machine's registers, and one thing: it is one certificate, or it has one first fault, and never both.
pub fn text_has_one_meaning()
    ensures some { (ports : Registers) (text : List ℕ) → ((cert : Stated) × IsCertOf ports text cert)
        ⊎ ((line : ℕ) × (kind : CertKind) × IsFaultyCert ports text line kind) }
    ensures cert { (ports : Registers) (text : List ℕ) (one other : Stated) → IsCertOf ports text one → IsCertOf ports text other → one ≡ other }
    ensures fault { (ports : Registers) (text : List ℕ) (line other_line : ℕ) (kind other_kind : CertKind)
        → IsFaultyCert ports text line kind → IsFaultyCert ports text other_line other_kind
        → (line ≡ other_line) × (kind ≡ other_kind) }
    ensures not_both { (ports : Registers) (text : List ℕ) (cert : Stated) (line : ℕ) (kind : CertKind)
        → IsCertOf ports text cert → IsFaultyCert ports text line kind → ⊥ }
{}

/// A certificate of version 1 has no link: what was read of such a text has no row with one.
pub fn first_version_has_no_links()
    ensures { (ports : Registers) (text : List ℕ) (cert : Stated) → OpensFirstVersion (lines_of text) → IsCertOf ports text cert
        → All (λ row. row.link ≡ None) cert.rows }
{}
