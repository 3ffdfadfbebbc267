//! A verdict as it is printed.

ghost use Rattle.std.specs.Prelude.{◌≡◌, Some};
ghost use Rattle.ags_verdict.specs.VerdictText.{refusal_name, refusal_place, refusal_rest};

use crate::verdicts::{Refusal, Verdict};
use ags_domain::{Operands, Value};
use ags_text::FourDigits;
use ags_word::{SixDigits, Word};
use std::fmt;

/// Where what is refused stands.
#[derive(Clone, Copy)]
enum Place {
    /// At no row.
    Nowhere,
    /// At an erasable cell, with its first word.
    Cell(u16, Word),
    /// At a row.
    Row(u32),
    /// At a row's case with a word.
    Case(u32, Word),
}

impl fmt::Display for Place {
    ghost use Rattle.ags_verdict.specs.VerdictText.{where_text};

    ghost output = { λ place. Some (where_text place) };

    fn fmt<W: fmt::Write>(&self, f: &mut fmt::Formatter<W>) -> fmt::Result {
        match *self {
            Place::Nowhere => Ok(()),
            Place::Cell(address, word) => {
                write!(f, " {} {}", FourDigits(address), SixDigits(word))
            }
            Place::Row(row) => write!(f, " ROW {row}"),
            Place::Case(row, word) => write!(f, " ROW {row} WORD {}", SixDigits(word)),
        }
    }
}

/// Operands that overflow, as a refusal tells them.
#[derive(Clone, Copy)]
struct Overflow {
    operands: Operands,
}

impl fmt::Display for Overflow {
    ghost use Rattle.ags_verdict.specs.VerdictText.{operands_text};

    ghost output = { λ overflow. Some (operands_text overflow.operands) };

    fn fmt<W: fmt::Write>(&self, f: &mut fmt::Formatter<W>) -> fmt::Result {
        let a = SixDigits(self.operands.a);
        let q = SixDigits(self.operands.q);
        let m = SixDigits(self.operands.m);
        write!(f, " A {a} Q {q} M {m}")
    }
}

/// A post that no row covers, as a refusal tells it: the index and the indicator before the order, and the post's location.
#[derive(Clone, Copy)]
struct Gap {
    x: u8,
    v: bool,
    next: u16,
}

impl fmt::Display for Gap {
    ghost use Rattle.ags_verdict.specs.VerdictText.{gap_text};

    ghost output = { λ gap. Some (gap_text gap.x gap.v gap.next) };

    fn fmt<W: fmt::Write>(&self, f: &mut fmt::Formatter<W>) -> fmt::Result {
        let x = self.x;
        let indicator = if self.v { "1" } else { "0" };
        let next = FourDigits(self.next);
        write!(f, " X {x} V {indicator} NEXT {next}")
    }
}

/// What a refusal tells after its place.
#[derive(Clone, Copy)]
enum Rest {
    /// Nothing.
    Nothing,
    /// A cell's address.
    Address(u16),
    /// Operands that overflow.
    Overflowing(Operands),
    /// An address with a value.
    Stored(u16, Value),
    /// An index, an indicator and a location.
    Uncovered { x: u8, v: bool, next: u16 },
}

impl fmt::Display for Rest {
    ghost use Rattle.ags_verdict.specs.VerdictText.{rest_text};

    ghost output = { λ rest. Some (rest_text rest) };

    fn fmt<W: fmt::Write>(&self, f: &mut fmt::Formatter<W>) -> fmt::Result {
        match *self {
            Rest::Nothing => Ok(()),
            Rest::Address(address) => write!(f, " AT {}", FourDigits(address)),
            Rest::Overflowing(operands) => fmt::Display::fmt(&Overflow { operands }, f),
            Rest::Stored(address, value) => {
                write!(f, " AT {} VALUE {value}", FourDigits(address))
            }
            Rest::Uncovered { x, v, next } => fmt::Display::fmt(&Gap { x, v, next }, f),
        }
    }
}

impl Refusal<Value> {
    /// The refusal's number with its name.
    fn name(&self) -> &'static str
        ensures { result.now ≡ refusal_name self.now }
    {
        match self {
            Refusal::InitRange { .. } => "1 InitRange",
            Refusal::StartUncovered => "2 StartUncovered",
            Refusal::CodeUnknown { .. } => "3 CodeUnknown",
            Refusal::NoOrder { .. } => "4 NoOrder",
            Refusal::BadPort { .. } => "5 BadPort",
            Refusal::FixedWrite { .. } => "6 FixedWrite",
            Refusal::MayOverflow { .. } => "7 MayOverflow",
            Refusal::CellRange { .. } => "8 CellRange",
            Refusal::OutputRange { .. } => "9 OutputRange",
            Refusal::NotCovered { .. } => "10 NotCovered",
        }
    }

    /// Where what is refused stands.
    fn place(&self) -> Place
        ensures { result ≡ refusal_place self.now }
    {
        match *self {
            Refusal::InitRange { address, word } => Place::Cell(address, word),
            Refusal::StartUncovered => Place::Nowhere,
            Refusal::CodeUnknown { row } => Place::Row(row),
            Refusal::NoOrder { row, word }
            | Refusal::BadPort { row, word }
            | Refusal::FixedWrite { row, word, .. }
            | Refusal::MayOverflow { row, word, .. }
            | Refusal::CellRange { row, word, .. }
            | Refusal::OutputRange { row, word, .. }
            | Refusal::NotCovered { row, word, .. } => Place::Case(row, word),
        }
    }

    /// What it tells after its place.
    fn rest(&self) -> Rest
        ensures { result ≡ refusal_rest self.now }
    {
        match *self {
            Refusal::FixedWrite { address, .. } => Rest::Address(address),
            Refusal::MayOverflow { operands, .. } => Rest::Overflowing(operands),
            Refusal::CellRange { address, value, .. }
            | Refusal::OutputRange { address, value, .. } => Rest::Stored(address, value),
            Refusal::NotCovered { x, v, next, .. } => Rest::Uncovered { x, v, next },
            _ => Rest::Nothing,
        }
    }
}

/// Prints the refusal's number and its name, and what it tells.
impl fmt::Display for Refusal<Value> {
    ghost use Rattle.ags_verdict.specs.VerdictText.{refusal_text};

    ghost output = { λ refusal. Some (refusal_text refusal) };

    fn fmt<W: fmt::Write>(&self, f: &mut fmt::Formatter<W>) -> fmt::Result {
        let name = self.name();
        let place = self.place();
        let rest = self.rest();
        write!(f, "{name}{place}{rest}")
    }
}

/// Prints the line of a verdict, without a line feed.
impl fmt::Display for Verdict<Value> {
    ghost use Rattle.ags_verdict.specs.VerdictText.{verdict_text};

    ghost output = { λ verdict. Some (verdict_text verdict) };

    fn fmt<W: fmt::Write>(&self, f: &mut fmt::Formatter<W>) -> fmt::Result {
        match self {
            Verdict::Certified { rows, cases } => write!(f, "CERTIFIED ROWS {rows} CASES {cases}"),
            Verdict::Refused(refusal) => write!(f, "REFUSED {refusal}"),
        }
    }
}
