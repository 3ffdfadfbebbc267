//! What comes of one line, and of the end of the text.

ghost use Rattle.std.specs.Prelude.{◌≡◌, ◌+◌, ◌-◌, ◌^◌, ◌<◌, min, List, ℕ, IfOk, IfErr, OnOk, IsErrOf};
ghost use Rattle.ags_ports.specs.Port.{Registers};
ghost use Rattle.ags_certtext.specs.Text.{IsCertOf, IsRefused};
ghost use Rattle.ags_certread.specs.Before.{IsOfStatements};
ghost use Rattle.ags_certread.specs.Gathered.{IsStateOfStatements};
ghost use Rattle.ags_certread.specs.Gathering.{gathering_of};
ghost use Rattle.ags_certread.specs.NextState.{GoesOn, HasRead, IsNext, IsWhole, is_open};

use crate::certificates::certificate_of;
use crate::ended_lines::EndedLines;
use crate::gatherer::Gatherer;
use crate::lines_taken::{bad_line, opened_version};
use crate::order::has_ended;
use crate::states::State;
use ags_certtext::{CertError, CertKind};
use ags_certtype::Cert;
use ags_ports::Ports;
use std::alloc::{AllocError, Global};

/// What comes of the first line, of which the version alone is kept.
fn first_state(gatherer: &mut Gatherer, line: &[u8]) -> State
    requires { IsOfStatements (gathering_of gatherer.old) }
    ensures statements { IsStateOfStatements (gathering_of gatherer.new) result }
    ensures next { (ports : Registers) → IsNext ports 0 (gathering_of gatherer.old) line.now (gathering_of gatherer.new) result }
{
    match opened_version(line) {
        Ok(version) => {
            gatherer.version = version;
            State::Open
        }
        Err(kind) => State::Told { line: 1, kind },
    }
}

/// What comes of a further line, after so many.
fn further_state(
    alloc: Global,
    ports: &Ports,
    number: u32,
    gatherer: &mut Gatherer,
    line: &[u8],
) -> Result<State, AllocError>
    requires statements { IsOfStatements (gathering_of gatherer.old) }
    requires some { 0 < number }
    ensures statements { IfOk result (IsStateOfStatements (gathering_of gatherer.new)) }
    ensures next { IfOk result (IsNext ports.now number (gathering_of gatherer.old) line.now (gathering_of gatherer.new)) }
{
    match gatherer.take_line(alloc, ports, number.saturating_add(1), line) {
        Ok(()) => Ok(State::Open),
        Err(CertError::At { line, kind }) => Ok(State::Told { line, kind }),
        Err(CertError::NoMemory) => Err(AllocError),
    }
}

/// What comes of the next line, after so many.
fn next_state(
    alloc: Global,
    ports: &Ports,
    number: u32,
    gatherer: &mut Gatherer,
    line: &[u8],
) -> Result<State, AllocError>
    requires { IsOfStatements (gathering_of gatherer.old) }
    ensures statements { IfOk result (IsStateOfStatements (gathering_of gatherer.new)) }
    ensures next { IfOk result (IsNext ports.now number (gathering_of gatherer.old) line.now (gathering_of gatherer.new)) }
{
    if number == 0 {
        Ok(first_state(gatherer, line))
    } else {
        further_state(alloc, ports, number, gatherer, line)
    }
}

/// The certificate where all lines were taken, so many, or that it lacks its first line or its last.
fn finish_open(
    alloc: Global,
    ports: &Ports,
    number: u32,
    gatherer: Gatherer,
) -> Result<Cert, CertError>
    requires { IsOfStatements (gathering_of gatherer) }
    ensures read { IfOk result (λ cert. (text : List ℕ) → IsWhole ports.now text (gathering_of gatherer) number → IsCertOf ports.now text cert) }
    ensures refused { IfErr result (λ error. (text : List ℕ) → IsWhole ports.now text (gathering_of gatherer) number → IsRefused ports.now text error) }
{
    if number == 0 {
        return Err(bad_line(1));
    }
    if !has_ended(gatherer.last) {
        return Err(bad_line(number.saturating_add(1)));
    }
    match certificate_of(alloc, gatherer) {
        Ok(cert) => Ok(cert),
        Err(_) => Err(CertError::NoMemory),
    }
}

impl EndedLines {
    /// Whether no fault was found and no memory was wanting.
    pub(crate) fn are_open(&self) -> bool
        ensures { result ≡ is_open self.now.state }
    {
        match self.state {
            State::Open => true,
            State::Told { .. } => false,
            State::Spent => false,
        }
    }

    /// Takes the next line, without its end.
    pub(crate) fn take(&mut self, line: &[u8]) -> Result<(), AllocError>
        ensures taken { OnOk result (GoesOn self.old.state self.old line.now self.new) }
        ensures ports { self.new.ports ≡ self.old.ports }
        ensures spent { IfErr result (λ _. self.new.state ≡ State.Spent) }
        ensures stays_spent { self.old.state ≡ State.Spent → self.new.state ≡ State.Spent }
    {
        if !self.are_open() {
            return Ok(());
        }
        match next_state(
            self.alloc,
            &self.ports,
            self.number,
            &mut self.gatherer,
            line,
        ) {
            Ok(state) => {
                self.state = state;
                self.number = self.number.saturating_add(1);
                Ok(())
            }
            Err(error) => {
                self.state = State::Spent;
                Err(error)
            }
        }
    }

    /// The line that has begun is too long.
    pub(crate) fn refuse_long_line(&mut self)
        ensures { self.new ≡ record self.old { state = State.Told (min (self.old.number + 1) (2 ^ 32 - 1)) CertKind.BadLine } }
    {
        self.state = State::Told {
            line: self.number.saturating_add(1),
            kind: CertKind::BadLine,
        };
    }

    /// Memory was wanting.
    pub(crate) fn spend(&mut self)
        ensures { self.new ≡ record self.old { state = State.Spent } }
    {
        self.state = State::Spent;
    }

    /// The certificate of the lines, which are all of a text, or their first fault.
    pub(crate) fn finish(self) -> Result<Cert, CertError>
        ensures read { IfOk result (λ cert. (text : List ℕ) → HasRead self.state self text → IsCertOf self.ports text cert) }
        ensures refused { IfErr result (λ error. (text : List ℕ) → HasRead self.state self text → IsRefused self.ports text error) }
        ensures spent { self.state ≡ State.Spent → IsErrOf result CertError.NoMemory }
    {
        let EndedLines {
            alloc,
            ports,
            number,
            gatherer,
            state,
        } = self;
        match state {
            State::Open => finish_open(alloc, &ports, number, gatherer),
            State::Told { line, kind } => Err(CertError::At { line, kind }),
            State::Spent => Err(CertError::NoMemory),
        }
    }
}
