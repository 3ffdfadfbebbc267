//! The row of a row's edit: its lines come one after the other.

ghost use Rattle.std.specs.Prelude.{◌≡◌, ◌<◌, ◌||◌, true, false, length, Some, IfOk, IfSome};
ghost use Rattle.ags_row.specs.Link.{is_link};
ghost use Rattle.ags_certtext.specs.Fault.{is_empty, is_fixed};
ghost use Rattle.ags_certtext.specs.Statement.{IsRowLine};
ghost use Rattle.ags_certread.specs.Gathering.{has_cell};
ghost use Rattle.ags_edits.specs.Gathering.{IsBareRow, IsWithCell, IsWithLink, at_fault};

use crate::edits_errors::EditsKind;
use ags_certread::{add_cell, has_cell};
use ags_certtext::{Entry, RowLine};
use ags_domain::Value;
use ags_row::{Link, MOST_CELLS, Row, RowParts};
use ags_word::ERASABLE;
use std::alloc::{AllocError, Global};

/// Whether the cell is a fixed one.
pub(crate) fn is_fixed(address: u16) -> bool
    ensures { result ≡ is_fixed address }
{
    address >= ERASABLE
}

/// The row of a line, without cells and without a link.
pub(crate) fn bare_row(alloc: Global, line: RowLine) -> Option<Row<Value>>
    requires { IsRowLine line }
    ensures row { IfSome result (IsBareRow line) }
    ensures none { result ≡ None → (is_empty line.a || is_empty line.q) ≡ true }
{
    let (first, second) = (line.a, line.q);
    let x = line.x;
    let v = line.v;
    let a = first?;
    let q = second?;
    Some(Row::made_of(RowParts {
        location: line.location,
        a,
        q,
        x,
        v,
        at: Vec::new(alloc),
        link: None,
    }))
}

/// The fault of a further cell of a row.
pub(crate) fn at_fault(row: &Row<Value>, its: &Entry) -> Option<EditsKind>
    ensures { result ≡ at_fault row.now its.now }
{
    if has_cell(row.at(), its.address) {
        return Some(EditsKind::Twice);
    }
    if its.value.is_none() {
        return Some(EditsKind::EmptyRange);
    }
    if row.at().len() >= MOST_CELLS {
        return Some(EditsKind::TooManyAt);
    }
    None
}

/// The row with a further cell.
pub(crate) fn with_cell(
    alloc: Global,
    row: &Row<Value>,
    its: &Entry,
) -> Result<Row<Value>, AllocError>
    requires erasable { its.now.address < 2048 }
    requires faultless { at_fault row.now its.now ≡ None }
    ensures { IfOk result (IsWithCell row.now its.now) }
{
    let mut cells = Vec::from_slice(alloc, row.at())?;
    add_cell(&mut cells, its)?;
    Ok(Row::made_of(RowParts {
        location: row.location(),
        a: row.a(),
        q: row.q(),
        x: row.x(),
        v: row.v(),
        at: cells,
        link: row.link(),
    }))
}

/// The row with a link.
pub(crate) fn with_link(
    alloc: Global,
    row: &Row<Value>,
    link: Link,
) -> Result<Row<Value>, AllocError>
    requires { is_link (Some link) ≡ true }
    ensures { IfOk result (IsWithLink row.now link) }
{
    let cells = Vec::from_slice(alloc, row.at())?;
    Ok(Row::made_of(RowParts {
        location: row.location(),
        a: row.a(),
        q: row.q(),
        x: row.x(),
        v: row.v(),
        at: cells,
        link: Some(link),
    }))
}
