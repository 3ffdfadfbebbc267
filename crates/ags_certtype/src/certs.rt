//! Certificates.

ghost use Rattle.std.specs.Prelude.{◌≡◌, ◌<◌, ◌≤◌, ◌^◌, ◌↔◌, IsTrue, true, false, None, IfOk, length};
ghost use Rattle.ags_certtype.specs.Cert.{IsCert, IsCertOfParts, certificate_of, stated_by};
ghost use Rattle.ags_certtype.specs.Index.{IsIndex, locations_of, numbers_at};
ghost use Rattle.ags_certtype.specs.Limit.{most_rows};

use crate::checks::{are_few_at_each, are_firsts_within, are_rows_within};
use crate::indexes::{ENTRIES, numbers_at, refill};
use ags_domain::Value;
use ags_row::{Limits, Row};
use ags_word::{ERASABLE, LOCATIONS};
use std::alloc::{AllocError, Global};
use std::marker::Model;

/// The most rows of a certificate.
pub const MOST_ROWS: usize = 20_000;

/// The most rows at one location.
pub const MOST_ROWS_AT_ONE: u16 = 512;

/// The parts that a certificate is made of.
#[derive(Drop)]
pub struct CertParts {
    /// The location that a run starts at, below 4096.
    pub start: u16,
    /// What each cell and each port may hold, and the named places.
    pub limits: Limits<Value>,
    /// For each of the 2048 erasable cells what it may hold at the start, where that is stated.
    pub init: Vec<Option<Value>>,
    /// The rows, in order; 1 to 20,000, at most 512 at one location.
    pub rows: Vec<Row<Value>>,
}

/// A certificate. What is stated of a cell is within the cell's limit, and it has 1 to 20,000 rows, at most 512 at one location. It
/// keeps an index of its rows by location.
pub struct Cert {
    pub(crate) start: u16,
    pub(crate) limits: Limits<Value>,
    pub(crate) init: Vec<Option<Value>>,
    pub(crate) rows: Vec<Row<Value>>,
    pub(crate) starts: Vec<u32>,
    pub(crate) numbers: Vec<u32>,
}

// Written, so that whoever lets one go calls this, and the checker follows no part of it there.
impl Drop for Cert {
    fn drop(self) {
        let Cert {
            start: _,
            limits: _,
            init: _,
            rows: _,
            starts: _,
            numbers: _,
        } = self;
    }
}

impl Model for Cert {
    ghost use Rattle.ags_certtype.specs.Cert.{Stated, IsCert};
    ghost use Rattle.ags_certtype.specs.Index.{IsIndex, locations_of};

    ghost Value = { Stated };

    ghost view = { λ cert. record {
      start = cert.start;
      limits = cert.limits;
      init = cert.init.items;
      rows = cert.rows.items;
    } };

    ghost invariant = { λ cert. IsCert (record {
      start = cert.start;
      limits = cert.limits;
      init = cert.init.items;
      rows = cert.rows.items;
    }) × IsIndex (locations_of cert.rows.items) cert.starts.items cert.numbers.items };
}

/// A list of so many zeros.
fn zeros(alloc: Global, count: usize) -> Result<Vec<u32>, AllocError>
    ensures { IfOk result (λ list. length list.items ≡ count) }
{
    Ok(vec![in alloc; 0; count]?)
}

/// Whether a certificate may start where some parts say, and have so many entries for the cells at the start and so many rows.
fn are_sizes_right(parts: &CertParts) -> bool
    ensures { IsTrue result ↔ (parts.now.start < 4096
        × (length parts.now.init.items ≡ 2048 × (1 ≤ length parts.now.rows.items × (length parts.now.rows.items ≤ most_rows)))) }
{
    parts.start < LOCATIONS
        && parts.init.len() == ERASABLE as usize
        && !parts.rows.is_empty()
        && parts.rows.len() <= MOST_ROWS
}

/// An index of some rows by their locations: the entries, and the rows' numbers. The one error is want of memory.
fn index_of(alloc: Global, rows: &[Row<Value>]) -> Result<(Vec<u32>, Vec<u32>), AllocError>
    requires { length rows.now < 2 ^ 32 }
    ensures { IfOk result (λ index. IsIndex (locations_of rows.now) index.0.items index.1.items) }
{
    let mut starts = zeros(alloc, ENTRIES)?;
    let mut numbers = zeros(alloc, rows.len())?;
    refill(rows, &mut starts, &mut numbers);
    Ok((starts, numbers))
}

impl Cert {
    /// Whether some parts make a certificate. The one error is want of memory.
    fn is_made_of(alloc: Global, parts: &CertParts) -> Result<bool, AllocError>
        ensures yes { IfOk result (λ yes. yes ≡ true → IsCert (stated_by parts.now)) }
        ensures no { IfOk result (λ yes. yes ≡ false → ¬ IsCert (stated_by parts.now)) }
    {
        let _every = parts.limits.every();
        if !are_few_at_each(alloc, parts.rows.as_slice())? {
            return Ok(false);
        }
        if !are_sizes_right(parts) {
            return Ok(false);
        }
        if !are_firsts_within(parts.init.as_slice(), &parts.limits) {
            return Ok(false);
        }
        Ok(are_rows_within(parts.rows.as_slice(), &parts.limits))
    }

    /// The certificate of some parts, and nothing where they make none. The one error is want of memory.
    pub fn of(alloc: Global, parts: CertParts) -> Result<Option<Cert>, AllocError>
        ensures { IfOk result (IsCertOfParts parts) }
    {
        if !Cert::is_made_of(alloc, &parts)? {
            return Ok(None);
        }
        Ok(Some(Cert::made_of(alloc, parts)?))
    }

    /// The certificate of parts that are known to make one. Nothing is checked; the one error is want of memory.
    pub fn made_of(alloc: Global, parts: CertParts) -> Result<Cert, AllocError>
        requires { IsCert (stated_by parts) }
        ensures { IfOk result (λ cert. cert ≡ stated_by parts) }
    {
        let (starts, numbers) = index_of(alloc, parts.rows.as_slice())?;
        Ok(Cert {
            start: parts.start,
            limits: parts.limits,
            init: parts.init,
            rows: parts.rows,
            starts,
            numbers,
        })
    }

    /// The location that a run starts at, below 4096.
    pub fn start(&self) -> u16
        ensures start { result ≡ self.now.start }
        ensures cert { IsCert self.now }
    {
        self.start
    }

    /// What each cell and each port may hold, and the named places.
    pub fn limits(&self) -> &Limits<Value>
        ensures limits { result.now ≡ self.now.limits }
        ensures cert { IsCert self.now }
    {
        &self.limits
    }

    /// What an erasable cell may hold at the start, where that is stated; nothing for an address from 2048 up.
    pub fn init(&self, address: u16) -> Option<Value>
        ensures fixed { 2048 ≤ address → result ≡ None }
        ensures init { result ≡ (certificate_of self.now).init address }
        ensures cert { IsCert self.now }
    {
        let init = self.init.as_slice();
        if address >= ERASABLE {
            return None;
        }
        init[address as usize]
    }

    /// The rows, in order; 1 to 20,000, at most 512 at one location.
    pub fn rows(&self) -> &[Row<Value>]
        ensures rows { result.now ≡ self.now.rows }
        ensures cert { IsCert self.now }
    {
        self.rows.as_slice()
    }

    /// The numbers, from 1, of the rows at a location, ascending. It takes no memory.
    pub fn at_location(&self, location: u16) -> &[u32]
        requires { location < 4096 }
        ensures { result.now ≡ numbers_at self.now.rows location }
    {
        numbers_at(
            self.rows.as_slice(),
            self.starts.as_slice(),
            self.numbers.as_slice(),
            location,
        )
    }
}
