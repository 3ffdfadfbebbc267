//! The cells that a row names.

ghost use Rattle.std.specs.Prelude.{◌≡◌, ◌<◌, true};
ghost use Rattle.std.specs.Option.{option_copied};
ghost use Rattle.ags_row.specs.Cell.{cells_ascend, value_among};

use crate::ats::At;
use ags_word::ERASABLE;
use std::marker::Model;

/// A list of cells with what each may hold.
#[derive(Drop)]
pub struct Cells<D> {
    list: Vec<At<D>>,
}

impl<D> Model for Cells<D> {
    ghost use Rattle.std.specs.Prelude.{List};
    ghost use Rattle.ags_row.specs.declared.ats.At.{At};

    ghost Value = { List (At D) };

    ghost view = { λ cells. cells.list.items };
}

impl<D> Cells<D> {
    /// The cells of a list.
    pub(crate) fn of(list: Vec<At<D>>) -> Cells<D>
        ensures { result ≡ list.items }
    {
        Cells { list }
    }

    /// The cells as a slice.
    pub(crate) fn as_slice(&self) -> &[At<D>]
        ensures { result.now ≡ self.now }
    {
        self.list.as_slice()
    }
}

/// Whether each cell is erasable and stands above the one before it.
pub(crate) fn ascend<D>(cells: &[At<D>]) -> bool
    ensures { result ≡ cells_ascend 0 cells.now }
{
    let mut from = 0;
    for cell in cells {
        if cell.address < from || ERASABLE <= cell.address {
            return false;
        }
        from = cell.address + 1;
    }
    true
}

/// What the cell at an address may hold, if it is among some that ascend. It is found by halving.
fn value_among<D: Copy>(cells: &[At<D>], address: u16) -> Option<&D>
    requires { cells_ascend 0 cells.now ≡ true }
    ensures { option_copied result ≡ value_among cells.now address }
{
    let mut low = 0;
    let mut high = cells.len();
    while low < high {
        let middle = low + (high - low) / 2;
        let cell = &cells[middle];
        if cell.address == address {
            return Some(&cell.value);
        }
        if cell.address < address {
            low = middle + 1;
        } else {
            high = middle;
        }
    }
    None
}

/// The same, and the cell at the place where it is likely to stand is looked at first.
pub(crate) fn value_among_from<D: Copy>(cells: &[At<D>], likely: usize, address: u16) -> Option<&D>
    requires { cells_ascend 0 cells.now ≡ true }
    ensures { option_copied result ≡ value_among cells.now address }
{
    if likely < cells.len() {
        let cell = &cells[likely];
        if cell.address == address {
            return Some(&cell.value);
        }
    }
    value_among(cells, address)
}
