//! Edits of a certificate, in place. They take no memory, and where one is refused nothing changed.

ghost use Rattle.std.specs.Prelude.{◌≡◌, ◌<◌, ◌≤◌, ◌↔◌, All, IsTrue, IfErr, IfSome, OnOk, Err, None, true, length, get_or, set};
ghost use Rattle.std.specs.List.{remove};
ghost use Rattle.ags_domain.specs.Domain.{IsWithin};
ghost use Rattle.ags_domain.specs.Value.{value_meaning};
ghost use Rattle.ags_row.specs.Cell.{cells_ascend};
ghost use Rattle.ags_certtype.specs.Cert.{rows_at};
ghost use Rattle.ags_certtype.specs.Edit.{AreCellsWithin, IsLeastOutside, IsNoRow, IsUseWithin, ReplacesLimit, ReplacesRow, others_at};
ghost use Rattle.ags_certtype.specs.Limit.{most_rows_at_one};

use crate::certs::{Cert, MOST_ROWS_AT_ONE};
use crate::checks::is_first_within;
use crate::edit_errors::EditError;
use crate::indexes::refill;
use ags_domain::{Domain, Value};
use ags_row::{At, Limits, Row};

/// The first of some ascending cells that may hold more than its limit says.
fn first_outside(cells: &[At<Value>], limits: &Limits<Value>) -> Option<u16>
    requires below { All (λ at. at.address < 2048) cells.now }
    requires ascending { cells_ascend 0 cells.now ≡ true }
    ensures some { IfSome result (IsLeastOutside limits.now cells.now) }
    ensures none { result ≡ None → AreCellsWithin limits.now cells.now }
{
    for cell in cells {
        if !cell.value.within(&limits.cell(cell.address)) {
            return Some(cell.address);
        }
    }
    None
}

/// The first cell of a row that may hold more than its limit says.
fn row_outside(row: &Row<Value>, limits: &Limits<Value>) -> Option<u16>
    ensures some { IfSome result (IsLeastOutside limits.now row.now.at) }
    ensures none { result ≡ None → AreCellsWithin limits.now row.now.at }
{
    first_outside(row.at(), limits)
}

/// Whether what is stated of an erasable cell at the start, if anything is, is within a value.
fn is_start_within(init: &[Option<Value>], address: u16, value: &Value) -> bool
    requires whole { length init.now ≡ 2048 }
    requires below { address < 2048 }
    ensures { IsTrue result ↔ IfSome (get_or init.now address None) (λ first. IsWithin value_meaning first value.now) }
{
    is_first_within(init[address as usize], *value)
}

/// Whether of some cells the one at an address, if it is there, holds what a value says alone.
fn is_cell_within(cells: &[At<Value>], address: u16, value: &Value) -> bool
    ensures { IsTrue result ↔ All (λ at. at.address ≡ address → IsWithin value_meaning at.value value.now) cells.now }
{
    for cell in cells {
        if cell.address == address && !cell.value.within(value) {
            return false;
        }
    }
    true
}

/// Whether each of some rows holds in the cell at an address what a value says alone.
fn are_uses_within(rows: &[Row<Value>], address: u16, value: &Value) -> bool
    ensures { IsTrue result ↔ All (λ row. All (λ at. at.address ≡ address → IsWithin value_meaning at.value value.now) row.at) rows.now }
{
    for row in rows {
        if !is_cell_within(row.at(), address, value) {
            return false;
        }
    }
    true
}

impl Cert {
    /// How many rows stand at a location beside the row of a number.
    fn others_at(&self, number: u32, location: u16) -> usize
        requires first { 1 ≤ number }
        requires last { number ≤ length self.now.rows }
        requires below { location < 4096 }
        ensures { result ≡ others_at self.now.rows number location }
    {
        let there = self.at_location(location).len();
        if self.rows[number as usize - 1].location() == location {
            there - 1
        } else {
            there
        }
    }

    /// Puts a row in the place of another, where it may stand. Where that moves a row, the index of the rows is filled anew.
    fn put_row(&mut self, position: usize, new: Row<Value>)
        requires inside { position < length self.old.rows }
        requires within { AreCellsWithin self.old.limits new.at }
        requires room { rows_at (remove self.old.rows position) new.location < most_rows_at_one }
        ensures { self.new ≡ record self.old { rows = set self.old.rows position new } }
    {
        let moves = self.rows[position].location() != new.location();
        self.rows[position] = new;
        if moves {
            refill(self.rows.as_slice(), &mut self.starts, &mut self.numbers);
        }
    }

    /// Checks that a row may stand in the place of the row of a number, from 1.
    fn check_row(&self, row: u32, new: &Row<Value>) -> Result<(), EditError>
        ensures taken { OnOk result ((¬ IsNoRow self.now row) × AreCellsWithin self.now.limits new.now.at
            × (others_at self.now.rows row new.now.location < most_rows_at_one)) }
        ensures refused { IfErr result (λ error. ReplacesRow self.now row new.now (Err error) self.now) }
    {
        if row == 0 || self.rows.len() < row as usize {
            return Err(EditError::NoRow);
        }
        if let Some(address) = row_outside(new, &self.limits) {
            return Err(EditError::OutsideGlobal { address });
        }
        if self.others_at(row, new.location()) >= MOST_ROWS_AT_ONE as usize {
            return Err(EditError::FullLocation);
        }
        Ok(())
    }

    /// Replaces the row of a number, from 1 (docs/EDITS.md). It takes no memory. A row that isn't taken is dropped, and nothing changed.
    pub fn replace_row(&mut self, row: u32, new: Row<Value>) -> Result<(), EditError>
        ensures { ReplacesRow self.old row new result self.new }
    {
        self.check_row(row, &new)?;
        self.put_row(row as usize - 1, new);
        Ok(())
    }

    /// Whether what is stated of an erasable cell, at the start and in each row, is within a value.
    fn is_use_within(&self, address: u16, value: &Value) -> bool
        requires { address < 2048 }
        ensures { IsTrue result ↔ IsUseWithin self.now address value.now }
    {
        is_start_within(self.init.as_slice(), address, value)
            && are_uses_within(self.rows.as_slice(), address, value)
    }

    /// Replaces what an erasable cell may hold (docs/EDITS.md). It takes no memory. Where the edit is refused nothing changed.
    pub fn replace_limit(&mut self, cell: &At<Value>) -> Result<(), EditError>
        requires { cell.now.address < 2048 }
        ensures { ReplacesLimit self.old cell.now result self.new }
    {
        if !self.is_use_within(cell.address, &cell.value) {
            return Err(EditError::BelowUse);
        }
        self.limits.set_cell(cell.address, cell.value);
        let _every = self.limits.every();
        Ok(())
    }
}
