//! The fault of a statement, given those before it. Of several faults the one of the least number is told.

ghost use Rattle.std.specs.Prelude.{◌≡◌, ◌<◌, true, List, length};
ghost use Rattle.ags_row.specs.Cell.{cells_ascend};
ghost use Rattle.ags_certtext.specs.declared.statements.Statement.{Statement};
ghost use Rattle.ags_certtext.specs.declared.statements.Statement.TheVariants.{End, Linked, May, Row};
ghost use Rattle.ags_certtext.specs.Fault.{entry_fault, fault_after, fault_in, statement_fault};
ghost use Rattle.ags_certtext.specs.Statement.{IsStatement};
ghost use Rattle.ags_certread.specs.Before.{Gathered};
ghost use Rattle.ags_certread.specs.Gathering.{IsCounting, IsSized, gathering_of, row_count};

use crate::checks::{count_at, fault_if, is_empty, is_fixed, is_named, is_of_version};
use crate::gatherer::Gatherer;
use crate::order::{is_second_start, stands_in_order};
use crate::tables::{is_full, lacks_word, leaves_limit, may_stand};
use ags_certtext::{CertKind, Entry, RowLine, Statement, Table};
use ags_certtype::{MOST_ROWS, MOST_ROWS_AT_ONE};
use ags_ports::Ports;
use ags_row::Link;

impl Gatherer {
    /// How many rows there are, the open one with them.
    fn row_count(&self) -> usize
        requires { IsCounting (gathering_of self.now) }
        ensures { result ≡ row_count (gathering_of self.now) }
    {
        match self.line {
            Some(_) => self.rows.len() + 1,
            None => self.rows.len(),
        }
    }

    /// The fault of an entry of a table.
    fn entry_fault(&self, ports: &Ports, table: Table, entry: &Entry) -> Option<CertKind>
        requires { cells_ascend 0 self.now.row_cells.items ≡ true }
        ensures { (before : List Statement) → Gathered before (gathering_of self.now)
            → result ≡ entry_fault ports.now before table entry.now }
    {
        let misplaced = !may_stand(ports, table, entry.address);
        let twice = self.is_stated(table, entry.address);
        let outside = leaves_limit(table, entry, self.cells.as_slice());
        let unmet = lacks_word(ports, table, entry);
        let full = is_full(table, self.row_cells.as_slice());
        let fault = fault_if(full, CertKind::TooManyAt, None);
        let fault = fault_if(unmet, CertKind::NoZero, fault);
        let fault = fault_if(outside, CertKind::OutsideGlobal, fault);
        let fault = fault_if(is_empty(&entry.value), CertKind::EmptyRange, fault);
        let fault = fault_if(twice, CertKind::Twice, fault);
        fault_if(misplaced, CertKind::BadLine, fault)
    }

    /// The fault of a MAY line.
    fn place_fault(&self, ports: &Ports, location: u16) -> Option<CertKind>
        requires { location < length self.now.places.items }
        ensures { (before : List Statement) → Gathered before (gathering_of self.now)
            → result ≡ statement_fault ports.now before (May location) }
    {
        let twice = is_named(self.places.as_slice(), location);
        fault_if(twice, CertKind::Twice, None)
    }

    /// The fault of a ROW line.
    fn row_fault(&self, ports: &Ports, row: &RowLine) -> Option<CertKind>
        requires counting { IsCounting (gathering_of self.now) }
        requires place { row.now.location < length self.now.counts.items }
        ensures { (before : List Statement) → Gathered before (gathering_of self.now)
            → result ≡ statement_fault ports.now before (Row row.now) }
    {
        let empty = is_empty(&row.a) || is_empty(&row.q);
        let count = count_at(self.counts.as_slice(), row.location);
        let full = self.row_count() >= MOST_ROWS || count >= MOST_ROWS_AT_ONE;
        fault_if(
            empty,
            CertKind::EmptyRange,
            fault_if(full, CertKind::TooManyRows, None),
        )
    }

    /// The fault of a LINK line.
    fn link_fault(&self, ports: &Ports, link: &Link) -> Option<CertKind>
        ensures { (before : List Statement) → Gathered before (gathering_of self.now)
            → result ≡ statement_fault ports.now before (Linked link.now) }
    {
        let fixed = is_fixed(link.address);
        let twice = self.row_link.is_some();
        fault_if(
            fixed,
            CertKind::BadLine,
            fault_if(twice, CertKind::Twice, None),
        )
    }

    /// The fault of the END line.
    fn last_line_fault(&self, ports: &Ports) -> Option<CertKind>
        requires { IsCounting (gathering_of self.now) }
        ensures { (before : List Statement) → Gathered before (gathering_of self.now)
            → result ≡ statement_fault ports.now before End }
    {
        fault_if(self.row_count() == 0, CertKind::NoRows, None)
    }

    /// The fault of a statement that stands where its kind may.
    fn part_fault(&self, ports: &Ports, statement: &Statement) -> Option<CertKind>
        requires sized { IsSized (gathering_of self.now) }
        requires counting { IsCounting (gathering_of self.now) }
        requires ascending { cells_ascend 0 self.now.row_cells.items ≡ true }
        requires statement { IsStatement statement.now }
        ensures { (before : List Statement) → Gathered before (gathering_of self.now)
            → result ≡ statement_fault ports.now before statement.now }
    {
        match statement {
            Statement::Start(_) => None,
            Statement::Entry(table, entry) => self.entry_fault(ports, *table, entry),
            Statement::May(location) => self.place_fault(ports, *location),
            Statement::Row(row) => self.row_fault(ports, row),
            Statement::Linked(link) => self.link_fault(ports, link),
            Statement::End => self.last_line_fault(ports),
        }
    }

    /// The fault of a statement of the text's version.
    fn fault(&self, ports: &Ports, statement: &Statement) -> Option<CertKind>
        requires sized { IsSized (gathering_of self.now) }
        requires counting { IsCounting (gathering_of self.now) }
        requires ascending { cells_ascend 0 self.now.row_cells.items ≡ true }
        requires statement { IsStatement statement.now }
        ensures { (before : List Statement) → Gathered before (gathering_of self.now)
            → result ≡ fault_after ports.now before statement.now }
    {
        if is_second_start(self.last, statement) {
            return Some(CertKind::Twice);
        }
        if !stands_in_order(self.last, statement) {
            return Some(CertKind::BadLine);
        }
        self.part_fault(ports, statement)
    }

    /// The fault of a statement in a text of the version that was opened.
    pub(crate) fn fault_in(&self, ports: &Ports, statement: &Statement) -> Option<CertKind>
        requires sized { IsSized (gathering_of self.now) }
        requires counting { IsCounting (gathering_of self.now) }
        requires ascending { cells_ascend 0 self.now.row_cells.items ≡ true }
        requires statement { IsStatement statement.now }
        ensures { (before : List Statement) → Gathered before (gathering_of self.now)
            → result ≡ fault_in ports.now self.now.version before statement.now }
    {
        if !is_of_version(self.version, statement) {
            return Some(CertKind::BadLine);
        }
        self.fault(ports, statement)
    }
}
