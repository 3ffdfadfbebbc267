//! The reader of certificates that come in pieces.

ghost use Rattle.std.specs.Prelude.{◌≡◌, ◌≤◌, ℕ, List, [], ◌∷◌, ◌++◌, IfOk, IfErr, OnOk, IsErrOf, length};
ghost use Rattle.std.proofs.Common.{refl, ◌∙◌};
ghost use Rattle.ags_outside.specs.Taken.{TookMore};
ghost use Rattle.ags_text.specs.Line.{HasNoFeed};
ghost use Rattle.ags_certtext.specs.Text.{IsCertOf, IsRefused};
ghost use Rattle.ags_certread.specs.Length.{certificate_limit};
ghost use Rattle.ags_certread.specs.Pieces.{took_cert};

use crate::cert_readers::CertReader;
use crate::ended_lines::EndedLines;
use crate::gatherer::Gatherer;
use crate::states::State;
use ags_certtext::CertError;
use ags_certtype::Cert;
use ags_outside::Taker;
use ags_ports::Ports;
use ags_text::{MOST_LINE_BYTES, split_at_feed, strip_return};
use std::alloc::{AllocError, Global};

/// The most bytes of a line with the one return that may end it.
const MOST_REST: usize = MOST_LINE_BYTES + 1;

impl CertReader {
    /// A reader for a machine's registers that took nothing.
    pub fn new(alloc: Global, ports: &Ports) -> Result<CertReader, AllocError>
        ensures took { IfOk result (λ reader. took_cert reader []) }
        ensures ports { IfOk result (λ reader. reader.ports ≡ ports.now) }
    {
        let gatherer = Gatherer::new(alloc)?;
        Ok(CertReader {
            rest: Vec::new(alloc),
            lines: EndedLines {
                alloc,
                ports: ports.copy(),
                number: 0,
                gatherer,
                state: State::Open,
            },
        })
    }

    /// Takes bytes without a line feed, and keeps them.
    fn hold(&mut self, bytes: &[u8]) -> Result<(), AllocError>
        requires faultless { self.old.state ≡ State.Open }
        requires unbroken { HasNoFeed bytes.now }
        ensures took { OnOk result (TookMore took_cert self.old self.new bytes.now) }
        ensures ports { self.new.ports ≡ self.old.ports }
        ensures spent { IfErr result (λ _. self.new.state ≡ State.Spent) }
    {
        if bytes.len() > MOST_REST - self.rest.len() {
            self.lines.refuse_long_line();
            return Ok(());
        }
        match self.rest.extend_from_slice(bytes) {
            Ok(()) => Ok(()),
            Err(error) => {
                self.lines.spend();
                Err(error)
            }
        }
    }

    /// Takes the line feed of the line that is kept.
    fn end_rest(&mut self) -> Result<(), AllocError>
        ensures took { OnOk result (TookMore took_cert self.old self.new (10 ∷ [])) }
        ensures ports { self.new.ports ≡ self.old.ports }
        ensures spent { IfErr result (λ _. self.new.state ≡ State.Spent) }
    {
        self.lines.take(strip_return(self.rest.as_slice()))?;
        self.rest.clear();
        Ok(())
    }

    /// Takes bytes without a line feed, and the line feed after them. A line of which nothing is kept is read where it stands.
    fn end_line(&mut self, bytes: &[u8]) -> Result<(), AllocError>
        requires faultless { self.old.state ≡ State.Open }
        requires unbroken { HasNoFeed bytes.now }
        ensures took { OnOk result (TookMore took_cert self.old self.new (bytes.now ++ 10 ∷ [])) }
        ensures ports { self.new.ports ≡ self.old.ports }
        ensures spent { IfErr result (λ _. self.new.state ≡ State.Spent) }
    {
        if self.rest.is_empty() {
            return self.lines.take(strip_return(bytes));
        }
        self.hold(bytes)?;
        self.end_rest()
    }

    /// The certificate that the bytes taken state for the registers, or its first fault: what `read` answers for these bytes. A reader
    /// for which memory was wanting answers just that.
    pub fn finish(self) -> Result<Cert, CertError>
        ensures read { IfOk result (λ cert. (text : List ℕ) → took_cert self text → length text ≤ certificate_limit
            → IsCertOf self.ports text cert) }
        ensures refused { IfErr result (λ error. (text : List ℕ) → took_cert self text → length text ≤ certificate_limit
            → IsRefused self.ports text error) }
        ensures spent { self.state ≡ State.Spent → IsErrOf result CertError.NoMemory }
    {
        let CertReader { rest, lines } = self;
        let line = strip_return(rest.as_slice());
        if line.is_empty() {
            return lines.finish();
        }
        let mut lines = lines;
        match lines.take(line) {
            Ok(()) => lines.finish(),
            Err(_) => Err(CertError::NoMemory),
        }
    }
}

impl Taker for CertReader {
    ghost took = { took_cert };

    ghost stays = { λ old new. new.ports ≡ old.ports };

    ghost stays_at_once = { λ reader. refl };

    ghost stays_on = { λ old mid new one two. two ∙ one };

    fn take(&mut self, piece: &[u8]) -> Result<(), AllocError>
        ensures took { OnOk result (TookMore took_cert self.old self.new piece.now) }
        ensures ports { self.new.ports ≡ self.old.ports }
        ensures spent { IfErr result (λ _. self.new.state ≡ State.Spent) }
    {
        let mut left = piece;
        while self.lines.are_open() {
            match split_at_feed(left) {
                Some((front, behind)) => {
                    self.end_line(front)?;
                    left = behind;
                }
                None => return self.hold(left),
            }
        }
        Ok(())
    }
}
