//! Rows: what may stand where one order begins.

ghost use Rattle.std.specs.Prelude.{◌≡◌, ◌<◌, ◌≤◌, true, length};
ghost use Rattle.ags_row.specs.Cell.{cells_ascend};
ghost use Rattle.ags_row.specs.Flag.{some_flag};
ghost use Rattle.ags_row.specs.Link.{is_link};

use crate::ats::At;
use crate::cells::{Cells, ascend};
use crate::links::{Link, is_link};
use ags_word::LOCATIONS;

/// How many cells a row names at most.
pub const MOST_CELLS: usize = 64;

/// The parts that a row is made of.
#[derive(Drop)]
pub struct RowParts<D> {
    /// The location, below 4096.
    pub location: u16,
    /// The words that A may hold.
    pub a: D,
    /// The words that Q may hold.
    pub q: D,
    /// For each value of the index register whether it may stand; one may.
    pub x: [bool; 8],
    /// Whether the indicator may be clear, and whether it may be set; one of them.
    pub v: [bool; 2],
    /// What some erasable cells may hold, at most 64, in ascending order.
    pub at: Vec<At<D>>,
    /// The link of A to a cell, if it holds.
    pub link: Option<Link>,
}

/// What may stand where the order at one location begins. A cell that it doesn't name may hold what the limits say.
#[derive(Drop)]
pub struct Row<D> {
    pub(crate) location: u16,
    pub(crate) a: D,
    pub(crate) q: D,
    pub(crate) x: [bool; 8],
    pub(crate) v: [bool; 2],
    at: Cells<D>,
    link: Option<Link>,
    pub ghost below: { location < 4096 },
    pub ghost some_index: { some_flag x ≡ true },
    pub ghost some_indicator: { some_flag v ≡ true },
    pub ghost indices: { length x ≡ 8 },
    pub ghost indicators: { length v ≡ 2 },
    pub ghost few: { length at ≤ 64 },
    pub ghost ascending: { cells_ascend 0 at ≡ true },
    pub ghost linked: { is_link link ≡ true },
}

impl<D: Copy> Row<D> {
    ghost use Rattle.std.specs.Prelude.{◌≡◌};
    ghost use Rattle.ags_row.specs.Row.{AreRowParts, HasParts, IsRowOf};

    /// The row of some parts, and nothing where they make none: where the location is above 4095, no index or no indicator
    /// may stand, the cells are more than 64, not erasable, or don't ascend, or the link is to no erasable cell or its offset too large.
    pub fn of(parts: RowParts<D>) -> Option<Row<D>>
        ensures { IsRowOf parts result }
    {
        if parts.location >= LOCATIONS || !some_flag(&parts.x) || !some_flag(&parts.v) {
            return None;
        }
        if parts.at.len() > MOST_CELLS || !ascend(parts.at.as_slice()) {
            return None;
        }
        if !is_link(parts.link) {
            return None;
        }
        Some(Row::made_of(parts))
    }

    /// The row of parts that are known to make one. Nothing is checked.
    pub fn made_of(parts: RowParts<D>) -> Row<D>
        requires { AreRowParts parts }
        ensures { HasParts result parts }
    {
        Row {
            location: parts.location,
            a: parts.a,
            q: parts.q,
            x: parts.x,
            v: parts.v,
            at: Cells::of(parts.at),
            link: parts.link,
        }
    }

    /// The location, below 4096.
    pub fn location(&self) -> u16
        ensures { result ≡ self.now.location }
    {
        self.location
    }

    /// The words that A may hold.
    pub fn a(&self) -> D
        ensures { result ≡ self.now.a }
    {
        self.a
    }

    /// The words that Q may hold.
    pub fn q(&self) -> D
        ensures { result ≡ self.now.q }
    {
        self.q
    }

    /// For each value of the index register whether it may stand; one may.
    pub fn x(&self) -> [bool; 8]
        ensures { result ≡ self.now.x }
    {
        self.x
    }

    /// Whether the indicator may be clear, and whether it may be set; one of them.
    pub fn v(&self) -> [bool; 2]
        ensures { result ≡ self.now.v }
    {
        self.v
    }

    /// The link of A to a cell, if it holds.
    pub fn link(&self) -> Option<Link>
        ensures { result ≡ self.now.link }
    {
        self.link
    }

    /// What some erasable cells may hold, at most 64, in ascending order.
    pub fn at(&self) -> &[At<D>]
        ensures { result.now ≡ self.now.at }
    {
        self.at.as_slice()
    }
}

/// Whether one of some flags is set.
fn some_flag(flags: &[bool]) -> bool
    ensures { result ≡ some_flag flags.now }
{
    flags.iter().any(|flag| *flag)
}
