//! What each table of a certificate asks of its entries, and where they are kept.

ghost use Rattle.std.specs.Prelude.{◌≡◌, ◌<◌, true, IfOk, length, set};
ghost use Rattle.ags_row.specs.Cell.{cells_ascend};
ghost use Rattle.ags_certtext.specs.declared.statements.Statement.TheVariants.{Entry as EntryOf};
ghost use Rattle.ags_certtext.specs.Fault.{is_full_with, lacks_word, leaves_limit, may_stand};
ghost use Rattle.ags_certread.specs.Gathering.{IsPlaced, IsSized, gathering_of, is_stated_in, stated, with_entry_in};

use crate::checks::{is_fixed, is_stated, is_unmet, leaves};
use crate::gatherer::Gatherer;
use crate::open_rows::{add_cell, has_cell};
use ags_certtext::{Entry, Table};
use ags_domain::Value;
use ags_ports::{Ports, has_register};
use ags_row::{At, MOST_CELLS};
use std::alloc::AllocError;

/// Whether an entry of a table may stand at an address: of cells at one that isn't fixed, of registers at one of the machine's.
pub(crate) fn may_stand(ports: &Ports, table: Table, address: u16) -> bool
    ensures { result ≡ may_stand ports.now table address }
{
    match table {
        Table::Cell => !is_fixed(address),
        Table::Init => !is_fixed(address),
        Table::In => has_register(ports.inputs(), address),
        Table::Out => has_register(ports.outputs(), address),
        Table::At => !is_fixed(address),
    }
}

/// Whether what an entry states of a cell, at the start or in a row, isn't within the limit that is stated of it.
pub(crate) fn leaves_limit(table: Table, entry: &Entry, limits: &[Option<Value>]) -> bool
    ensures { result ≡ leaves_limit table entry.now.value (stated limits.now entry.now.address) }
{
    match table {
        Table::Init => leaves(entry, limits),
        Table::At => leaves(entry, limits),
        Table::Cell => false,
        Table::In => false,
        Table::Out => false,
    }
}

/// Whether the input register of an entry holds its word once, and what the entry states doesn't hold 0.
pub(crate) fn lacks_word(ports: &Ports, table: Table, entry: &Entry) -> bool
    ensures { result ≡ lacks_word ports.now table entry.now }
{
    match table {
        Table::Cell => false,
        Table::Init => false,
        Table::In => is_unmet(ports.inputs(), entry),
        Table::Out => false,
        Table::At => false,
    }
}

/// Whether a table has no room for a further entry beside the cells of the open row.
pub(crate) fn is_full(table: Table, cells: &[At<Value>]) -> bool
    ensures { result ≡ is_full_with (length cells.now) table }
{
    match table {
        Table::Cell => false,
        Table::Init => false,
        Table::In => false,
        Table::Out => false,
        Table::At => cells.len() >= MOST_CELLS,
    }
}

/// Sets what is stated at an entry's address.
fn put(table: &mut Vec<Option<Value>>, entry: &Entry)
    requires { entry.now.address < length table.now.items }
    ensures { table.new.items ≡ set table.old.items entry.now.address entry.now.value }
{
    table[entry.address as usize] = entry.value;
}

impl Gatherer {
    /// Whether something is stated at an address in a table; of the cells of a row, in the open one.
    pub(crate) fn is_stated(&self, table: Table, address: u16) -> bool
        requires { cells_ascend 0 self.now.row_cells.items ≡ true }
        ensures { result ≡ is_stated_in (gathering_of self.now) table address }
    {
        match table {
            Table::Cell => is_stated(self.cells.as_slice(), address),
            Table::Init => is_stated(self.init.as_slice(), address),
            Table::In => is_stated(self.inputs.as_slice(), address),
            Table::Out => is_stated(self.outputs.as_slice(), address),
            Table::At => has_cell(self.row_cells.as_slice(), address),
        }
    }

    /// Puts an entry without a fault into its table.
    pub(crate) fn enter(&mut self, table: Table, entry: &Entry) -> Result<(), AllocError>
        requires sized { IsSized (gathering_of self.old) }
        requires placed { IsPlaced self.old.counts.items (EntryOf table entry.now) }
        requires ascending { cells_ascend 0 self.old.row_cells.items ≡ true }
        ensures { IfOk result (λ _. gathering_of self.new ≡ with_entry_in (gathering_of self.old) table entry.now) }
    {
        match table {
            Table::Cell => put(&mut self.cells, entry),
            Table::Init => put(&mut self.init, entry),
            Table::In => put(&mut self.inputs, entry),
            Table::Out => put(&mut self.outputs, entry),
            Table::At => return add_cell(&mut self.row_cells, entry),
        }
        Ok(())
    }
}
