//! The kinds of statements, the order in which they stand, and the tables.

ghost use Rattle.std.specs.Prelude.{◌≡◌, IfSome, Some};
ghost use Rattle.ags_certtext.specs.declared.kinds.Table.{Table};
ghost use Rattle.ags_certtext.specs.Kind.{kind_of, kinds_before, table_kind, table_name};

use crate::statements::Statement;
use std::fmt;

/// The kinds of statements, in the order in which they stand in a certificate. The lines of a row's cells and its link are of the row's
/// kind.
#[derive(Clone, Copy)]
pub enum Kind {
    /// Where a run starts.
    Start,
    /// What cells may hold.
    Cell,
    /// What cells may hold at the start.
    Init,
    /// What input registers may hold.
    In,
    /// What output registers may hold.
    Out,
    /// The locations where an overflow is expected.
    May,
    /// The rows, with their cells and links.
    Row,
    /// The end of the certificate.
    End,
}

impl Kind {
    /// How many kinds stand before this one.
    pub fn position(self) -> usize
        ensures { result ≡ kinds_before self }
    {
        self as usize
    }
}

/// The tables of a certificate: what their entries say of the cell or the register at an address. A table prints as the keyword of its
/// entries.
#[derive(Clone, Copy, PartialEq, Eq)]
pub enum Table {
    /// What an erasable cell may hold.
    Cell,
    /// What an erasable cell may hold at the start.
    Init,
    /// What an input register may hold.
    In,
    /// What an output register may hold.
    Out,
    /// What a cell may hold in the row above.
    At,
}

impl Table {
    /// The table of a keyword, letter for letter.
    pub(crate) fn named(text: &[u8]) -> Option<Table>
        ensures found { IfSome result (λ table. table_name table ≡ text.now) }
        ensures only { (table : Table) → table_name table ≡ text.now → result ≡ Some table }
    {
        match text {
            b"CELL" => Some(Table::Cell),
            b"INIT" => Some(Table::Init),
            b"IN" => Some(Table::In),
            b"OUT" => Some(Table::Out),
            b"AT" => Some(Table::At),
            _ => None,
        }
    }

    /// The kind of the table's entries.
    pub fn kind(self) -> Kind
        ensures { result ≡ table_kind self }
    {
        match self {
            Table::Cell => Kind::Cell,
            Table::Init => Kind::Init,
            Table::In => Kind::In,
            Table::Out => Kind::Out,
            Table::At => Kind::Row,
        }
    }
}

impl fmt::Display for Table {
    ghost output = { λ table. Some (table_name table) };

    fn fmt<W: fmt::Write>(&self, f: &mut fmt::Formatter<W>) -> fmt::Result {
        f.write_str(match self {
            Table::Cell => "CELL",
            Table::Init => "INIT",
            Table::In => "IN",
            Table::Out => "OUT",
            Table::At => "AT",
        })
    }
}

impl Statement {
    /// The statement's kind.
    pub fn kind(&self) -> Kind
        ensures { result ≡ kind_of self.now }
    {
        match self {
            Statement::Start(_) => Kind::Start,
            Statement::Entry(table, _) => table.kind(),
            Statement::May(_) => Kind::May,
            Statement::Row(_) => Kind::Row,
            Statement::Linked(_) => Kind::Row,
            Statement::End => Kind::End,
        }
    }
}
