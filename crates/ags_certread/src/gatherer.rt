//! What is gathered of the statements of a certificate, one after the other.

ghost use Rattle.std.specs.Prelude.{◌≡◌, ◌<◌, true, false, ◌∷◌, List, Ok, None, IfOk, length, get_or, replicate};
ghost use Rattle.ags_row.specs.Cell.{cells_ascend};
ghost use Rattle.ags_certtext.specs.declared.statements.Statement.TheVariants.{Row as RowOf};
ghost use Rattle.ags_certtext.specs.declared.statements.Statement.{Statement};
ghost use Rattle.ags_certtext.specs.Fault.{fault_in};
ghost use Rattle.ags_certtext.specs.Statement.{IsStatement};
ghost use Rattle.ags_certtype.specs.Cert.{stated_by};
ghost use Rattle.ags_certread.specs.Before.{Stands};
ghost use Rattle.ags_certread.specs.Gathering.{Closes, ClosesBefore, IsClosable, IsPlaced, IsSized, gathering_of, nothing_stated, with_part, with_statement};

use crate::open_rows::row_of;
use ags_certtext::{CertKind, Kind, RowLine, Statement, Table};
use ags_certtype::CertParts;
use ags_domain::Value;
use ags_ports::Ports;
use ags_row::{At, Limits, Link, Row};
use ags_word::{ERASABLE, LOCATIONS};
use std::alloc::{AllocError, Global};

/// What is gathered of the statements so far.
pub(crate) struct Gatherer {
    /// The version that the first line opened; 0 where none was read.
    pub(crate) version: u32,
    /// The last statement's kind; nothing where none was taken.
    pub(crate) last: Option<Kind>,
    /// The location that a run starts at.
    pub(crate) start: u16,
    /// What is stated of each erasable cell.
    pub(crate) cells: Vec<Option<Value>>,
    /// What is stated of each at the start.
    pub(crate) init: Vec<Option<Value>>,
    /// What is stated of the input register at each address.
    pub(crate) inputs: Vec<Option<Value>>,
    /// What is stated of the output register at each address.
    pub(crate) outputs: Vec<Option<Value>>,
    /// Whether each location is a named place.
    pub(crate) places: Vec<bool>,
    /// The rows, without the open one.
    pub(crate) rows: Vec<Row<Value>>,
    /// How many rows stand at each location, the open one with them.
    pub(crate) counts: Vec<u16>,
    /// The line of the open row.
    pub(crate) line: Option<RowLine>,
    /// The cells of the open row, which ascend.
    pub(crate) row_cells: Vec<At<Value>>,
    /// The link of the open row, if it has one.
    pub(crate) row_link: Option<Link>,
}

// Written, so that whoever lets one go calls this, and the checker follows no part of it there.
impl Drop for Gatherer {
    fn drop(self) {
        let Gatherer {
            version: _,
            last: _,
            start: _,
            cells: _,
            init: _,
            inputs: _,
            outputs: _,
            places: _,
            rows: _,
            counts: _,
            line: _,
            row_cells: _,
            row_link: _,
        } = self;
    }
}

/// Two tables of so many addresses at which nothing is stated.
fn nothing_twice(
    alloc: Global,
    count: u16,
) -> Result<(Vec<Option<Value>>, Vec<Option<Value>>), AllocError>
    ensures { IfOk result (λ tables. (tables.0.items ≡ replicate count None) × (tables.1.items ≡ replicate count None)) }
{
    let one = vec![in alloc; None; count as usize]?;
    Ok((one, vec![in alloc; None; count as usize]?))
}

impl Gatherer {
    /// Nothing is stated yet.
    pub(crate) fn new(alloc: Global) -> Result<Gatherer, AllocError>
        ensures { IfOk result (λ gatherer. gathering_of gatherer ≡ nothing_stated) }
    {
        let places = vec![in alloc; false; LOCATIONS as usize]?;
        let counts = vec![in alloc; 0; LOCATIONS as usize]?;
        let (cells, init) = nothing_twice(alloc, ERASABLE)?;
        let (inputs, outputs) = nothing_twice(alloc, LOCATIONS)?;
        Ok(Gatherer {
            version: 0,
            last: None,
            start: ERASABLE,
            cells,
            init,
            inputs,
            outputs,
            places,
            rows: Vec::new(alloc),
            counts,
            line: None,
            row_cells: Vec::new(alloc),
            row_link: None,
        })
    }

    /// Closes the open row, if there is one: it is one of the rows from now on, in just the memory that its cells take.
    fn close(&mut self, alloc: Global) -> Result<(), AllocError>
        requires { IsClosable (gathering_of self.old) }
        ensures { IfOk result (λ _. Closes self.old.line (gathering_of self.old) (gathering_of self.new)) }
    {
        let Some(line) = self.line else {
            return Ok(());
        };
        let cells = Vec::from_slice(alloc, self.row_cells.as_slice())?;
        self.rows.push(row_of(line, cells, self.row_link))?;
        self.row_cells.clear();
        self.row_link = None;
        self.line = None;
        Ok(())
    }

    /// Closes the open row before a statement that doesn't belong to it.
    fn close_before(&mut self, alloc: Global, statement: &Statement) -> Result<(), AllocError>
        requires { IsClosable (gathering_of self.old) }
        ensures { IfOk result (λ _. ClosesBefore statement.now (gathering_of self.old) (gathering_of self.new)) }
    {
        match statement {
            Statement::Entry(Table::At, _) => Ok(()),
            Statement::Linked(_) => Ok(()),
            _ => self.close(alloc),
        }
    }

    /// Opens a row.
    fn open(&mut self, row: RowLine)
        requires place { row.location < length self.old.counts.items }
        requires room { get_or self.old.counts.items row.location 0 < 512 }
        ensures { gathering_of self.new ≡ with_part (gathering_of self.old) (RowOf row) }
    {
        let place = row.location as usize;
        let count = self.counts[place];
        self.counts[place] = count + 1;
        self.line = Some(row);
    }

    /// Adds what a statement without a fault says.
    fn add_part(&mut self, statement: &Statement) -> Result<(), AllocError>
        requires sized { IsSized (gathering_of self.old) }
        requires placed { IsPlaced self.old.counts.items statement.now }
        requires ascending { cells_ascend 0 self.old.row_cells.items ≡ true }
        ensures { IfOk result (λ _. gathering_of self.new ≡ with_part (gathering_of self.old) statement.now) }
    {
        match statement {
            Statement::Start(location) => self.start = *location,
            Statement::Entry(table, entry) => self.enter(*table, entry)?,
            Statement::May(location) => self.places[*location as usize] = true,
            Statement::Row(row) => self.open(*row),
            Statement::Linked(link) => self.row_link = Some(*link),
            Statement::End => {}
        }
        Ok(())
    }

    /// Adds a statement without a fault.
    fn add(&mut self, statement: &Statement) -> Result<(), AllocError>
        requires sized { IsSized (gathering_of self.old) }
        requires placed { IsPlaced self.old.counts.items statement.now }
        requires ascending { cells_ascend 0 self.old.row_cells.items ≡ true }
        ensures { IfOk result (λ _. gathering_of self.new ≡ with_statement (gathering_of self.old) statement.now) }
    {
        self.add_part(statement)?;
        self.last = Some(statement.kind());
        Ok(())
    }

    /// Takes a statement, or tells its fault.
    pub(crate) fn take(
        &mut self,
        alloc: Global,
        ports: &Ports,
        statement: &Statement,
    ) -> Result<Option<CertKind>, AllocError>
        requires stands { (before : List Statement) × Stands before (gathering_of self.old) }
        requires statement { IsStatement statement.now }
        ensures fault { IfOk result (λ fault. (before : List Statement) → Stands before (gathering_of self.old)
            → fault ≡ fault_in ports.now self.old.version before statement.now) }
        ensures taken { result ≡ Ok None → (before : List Statement) → Stands before (gathering_of self.old)
            → Stands (statement.now ∷ before) (gathering_of self.new) }
        ensures version { result ≡ Ok None → self.new.version ≡ self.old.version }
    {
        match self.fault_in(ports, statement) {
            Some(kind) => Ok(Some(kind)),
            None => {
                self.close_before(alloc, statement)?;
                self.add(statement)?;
                Ok(None)
            }
        }
    }

    /// The parts of the certificate with these limits.
    pub(crate) fn into_parts(self, limits: Limits<Value>) -> CertParts
        ensures { stated_by result ≡ record { start = self.start; limits = limits; init = self.init.items; rows = self.rows.items } }
    {
        let Gatherer {
            version: _,
            last: _,
            start,
            cells: _,
            init,
            inputs: _,
            outputs: _,
            places: _,
            rows,
            counts: _,
            line: _,
            row_cells: _,
            row_link: _,
        } = self;
        CertParts {
            start,
            limits,
            init,
            rows,
        }
    }
}
