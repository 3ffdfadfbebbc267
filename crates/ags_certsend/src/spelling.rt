//! Statements as they are printed.

ghost use Rattle.std.specs.Prelude.{Some};

use ags_certtext::{Entry, RowLine, Statement};
use ags_domain::Value;
use ags_row::Link;
use ags_text::FourDigits;
use std::fmt;

/// The flags of eight indices, which print as the digits of those that are set.
#[derive(Clone, Copy)]
struct Indices([bool; 8]);

impl fmt::Display for Indices {
    ghost use Rattle.ags_certtext.specs.Spelling.{flag_digits};

    ghost output = { λ flags. Some (flag_digits 48 flags.0) };

    fn fmt<W: fmt::Write>(&self, f: &mut fmt::Formatter<W>) -> fmt::Result {
        for index in 0u8..8 {
            if self.0[index as usize] {
                write!(f, "{index}")?;
            }
        }
        Ok(())
    }
}

/// The flags of the two indicators, which print as the digits of those that are set.
#[derive(Clone, Copy)]
struct Indicators([bool; 2]);

impl fmt::Display for Indicators {
    ghost use Rattle.ags_certtext.specs.Spelling.{flag_digits};

    ghost output = { λ flags. Some (flag_digits 48 flags.0) };

    fn fmt<W: fmt::Write>(&self, f: &mut fmt::Formatter<W>) -> fmt::Result {
        f.write_str(match self.0 {
            [true, true] => "01",
            [true, false] => "0",
            [false, true] => "1",
            [false, false] => "",
        })
    }
}

/// What is stated of a register or a cell.
#[derive(Clone, Copy)]
struct StatedValue(Option<Value>);

impl fmt::Display for StatedValue {
    ghost use Rattle.ags_certsend.specs.Spelled.{stated_value};

    ghost output = { λ value. Some (stated_value value.0) };

    fn fmt<W: fmt::Write>(&self, f: &mut fmt::Formatter<W>) -> fmt::Result {
        match &self.0 {
            Some(value) => fmt::Display::fmt(value, f),
            None => f.write_str("RANGE 1 0"),
        }
    }
}

/// An address with a value.
#[derive(Clone, Copy)]
struct SpelledEntry(Entry);

impl fmt::Display for SpelledEntry {
    ghost use Rattle.ags_certsend.specs.Spelled.{entry_text};

    ghost output = { λ entry. Some (entry_text entry.0) };

    fn fmt<W: fmt::Write>(&self, f: &mut fmt::Formatter<W>) -> fmt::Result {
        let address = FourDigits(self.0.address);
        let value = StatedValue(self.0.value);
        write!(f, "{address} {value}")
    }
}

/// A link, without its keyword.
#[derive(Clone, Copy)]
struct SpelledLink(Link);

impl fmt::Display for SpelledLink {
    ghost use Rattle.ags_certsend.specs.Spelled.{link_text};

    ghost output = { λ link. Some (link_text link.0) };

    fn fmt<W: fmt::Write>(&self, f: &mut fmt::Formatter<W>) -> fmt::Result {
        let address = FourDigits(self.0.address);
        let offset = self.0.offset;
        write!(f, "{address} {offset}")
    }
}

/// A row, without its keyword.
#[derive(Clone, Copy)]
struct SpelledRow(RowLine);

impl fmt::Display for SpelledRow {
    ghost use Rattle.ags_certsend.specs.Spelled.{row_text};

    ghost output = { λ row. Some (row_text row.0) };

    fn fmt<W: fmt::Write>(&self, f: &mut fmt::Formatter<W>) -> fmt::Result {
        let location = FourDigits(self.0.location);
        let a = StatedValue(self.0.a);
        let q = StatedValue(self.0.q);
        let x = Indices(self.0.x);
        let v = Indicators(self.0.v);
        write!(f, "{location} A {a} Q {q} X {x} V {v}")
    }
}

/// A statement that prints as its line, without a line feed.
#[derive(Clone, Copy)]
pub(crate) struct Spelled(pub(crate) Statement);

impl fmt::Display for Spelled {
    ghost use Rattle.ags_certsend.specs.Spelled.{statement_text};

    ghost output = { λ statement. Some (statement_text statement.0) };

    fn fmt<W: fmt::Write>(&self, f: &mut fmt::Formatter<W>) -> fmt::Result {
        match self.0 {
            Statement::Start(location) => {
                let place = FourDigits(location);
                write!(f, "START {place}")
            }
            Statement::Entry(table, entry) => {
                let entry = SpelledEntry(entry);
                write!(f, "{table} {entry}")
            }
            Statement::May(location) => {
                let place = FourDigits(location);
                write!(f, "MAY {place}")
            }
            Statement::Row(row) => {
                let row = SpelledRow(row);
                write!(f, "ROW {row}")
            }
            Statement::Linked(link) => {
                let link = SpelledLink(link);
                write!(f, "LINK {link}")
            }
            Statement::End => f.write_str("END"),
        }
    }
}
