//! What is checked of the parts of a certificate.

ghost use Rattle.std.specs.Prelude.{◌≡◌, ◌<◌, ◌≤◌, ◌↔◌, ℕ, true, false, IsTrue, All, IfOk, IfSome, None, length, get_or, replicate};
ghost use Rattle.ags_domain.specs.Domain.{IsWithin};
ghost use Rattle.ags_domain.specs.Value.{value_meaning};
ghost use Rattle.ags_row.specs.Limit.{cell_limit};
ghost use Rattle.ags_certtype.specs.Cert.{rows_at};
ghost use Rattle.ags_certtype.specs.Limit.{most_rows_at_one};

use crate::certs::MOST_ROWS_AT_ONE;
use ags_domain::{Domain, Value};
use ags_row::{At, Limits, Row};
use ags_word::{ERASABLE, LOCATIONS};
use std::alloc::{AllocError, Global};

/// A count of 0 for each location.
fn zeros(alloc: Global) -> Result<Vec<u16>, AllocError>
    ensures { IfOk result (λ counts. counts.items ≡ replicate 4096 0) }
{
    Ok(vec![in alloc; 0; LOCATIONS as usize]?)
}

/// Whether no further row may stand where so many do.
fn is_full(count: u16) -> bool
    ensures full { result ≡ true → most_rows_at_one ≤ count }
    ensures room { result ≡ false → count < most_rows_at_one }
{
    count >= MOST_ROWS_AT_ONE
}

/// Whether at most 512 of some rows stand at each location. The one error is want of memory.
pub(crate) fn are_few_at_each(alloc: Global, rows: &[Row<Value>]) -> Result<bool, AllocError>
    ensures { IfOk result (λ few. IsTrue few ↔ ((location : ℕ) → rows_at rows.now location ≤ most_rows_at_one)) }
{
    let mut counts = zeros(alloc)?;
    for row in rows {
        let place = row.location() as usize;
        let count = counts[place];
        if is_full(count) {
            return Ok(false);
        }
        counts[place] = count + 1;
    }
    Ok(true)
}

/// Whether what is stated of an erasable cell at the start, if anything is, is within its limit.
pub(crate) fn is_first_within(stated: Option<Value>, limit: Value) -> bool
    ensures { IsTrue result ↔ IfSome stated (λ value. IsWithin value_meaning value limit) }
{
    match stated {
        Some(value) => value.within(&limit),
        None => true,
    }
}

/// The same of the cell at an address.
fn is_within_at(init: &[Option<Value>], limits: &Limits<Value>, address: u16) -> bool
    requires whole { length init.now ≡ 2048 }
    requires below { address < 2048 }
    ensures { IsTrue result
        ↔ IfSome (get_or init.now address None) (λ value. IsWithin value_meaning value (cell_limit limits.now address)) }
{
    is_first_within(init[address as usize], limits.cell(address))
}

/// Whether what is stated of each erasable cell at the start is within its limit.
pub(crate) fn are_firsts_within(init: &[Option<Value>], limits: &Limits<Value>) -> bool
    requires { length init.now ≡ 2048 }
    ensures { IsTrue result ↔ ((address : ℕ) → address < 2048
        → IfSome (get_or init.now address None) (λ value. IsWithin value_meaning value (cell_limit limits.now address))) }
{
    for address in 0..ERASABLE {
        if !is_within_at(init, limits, address) {
            return false;
        }
    }
    true
}

/// Whether each of some cells may hold what its limit says alone.
fn are_cells_within(cells: &[At<Value>], limits: &Limits<Value>) -> bool
    requires { All (λ at. at.address < 2048) cells.now }
    ensures { IsTrue result ↔ All (λ at. IsWithin value_meaning at.value (cell_limit limits.now at.address)) cells.now }
{
    for cell in cells {
        if !cell.value.within(&limits.cell(cell.address)) {
            return false;
        }
    }
    true
}

/// The same of a row's cells.
fn is_row_within(row: &Row<Value>, limits: &Limits<Value>) -> bool
    ensures { IsTrue result ↔ All (λ at. IsWithin value_meaning at.value (cell_limit limits.now at.address)) row.now.at }
{
    are_cells_within(row.at(), limits)
}

/// Whether the cells of each of some rows may hold what their limits say alone.
pub(crate) fn are_rows_within(rows: &[Row<Value>], limits: &Limits<Value>) -> bool
    ensures { IsTrue result
        ↔ All (λ row. All (λ at. IsWithin value_meaning at.value (cell_limit limits.now at.address)) row.at) rows.now }
{
    for row in rows {
        if !is_row_within(row, limits) {
            return false;
        }
    }
    true
}
