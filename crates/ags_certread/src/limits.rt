//! The limits that are stated.

ghost use Rattle.std.specs.Prelude.{◌≡◌, ◌<◌, ◌+◌, length, IfOk};
ghost use Rattle.ags_row.specs.Limit.{SetsOne};
ghost use Rattle.ags_certread.specs.Gathering.{AreLimitsOf, IsNamedUpTo, IsSetUpTo, IsSized, gathering_of};
ghost use Rattle.ags_certread.specs.LimitTable.{KeepsOthers, address_count, limit_in};

use crate::gatherer::Gatherer;
use ags_domain::Value;
use ags_row::Limits;
use ags_word::{ERASABLE, LOCATIONS};
use std::alloc::{AllocError, Global};

/// A table of limits.
#[derive(Clone, Copy)]
enum Table {
    /// Those of the erasable cells.
    Cells,
    /// Those of the input registers.
    Inputs,
    /// Those of the output registers.
    Outputs,
}

impl Table {
    /// How many addresses the table has.
    fn count(self) -> u16
        ensures { result ≡ address_count self }
    {
        match self {
            Table::Cells => ERASABLE,
            Table::Inputs | Table::Outputs => LOCATIONS,
        }
    }

    /// Sets the limit at an address.
    fn set(self, limits: &mut Limits<Value>, address: u16, value: Value)
        requires { address < address_count self }
        ensures set { SetsOne (limit_in self limits.old) (limit_in self limits.new) address value }
        ensures rest { KeepsOthers self limits.old limits.new }
    {
        match self {
            Table::Cells => limits.set_cell(address, value),
            Table::Inputs => limits.set_input(address, value),
            Table::Outputs => limits.set_output(address, value),
        }
    }

    /// Sets the limit at an address, where one is stated.
    fn set_stated(self, limits: &mut Limits<Value>, stated: &[Option<Value>], address: u16)
        requires whole { length stated.now ≡ address_count self }
        requires inside { address < address_count self }
        requires so_far { IsSetUpTo address stated.now (limit_in self limits.old) }
        ensures set { IsSetUpTo (address + 1) stated.now (limit_in self limits.new) }
        ensures rest { KeepsOthers self limits.old limits.new }
    {
        if let Some(value) = stated[address as usize] {
            self.set(limits, address, value);
        }
    }

    /// Sets the limits that are stated.
    fn set_all(self, limits: &mut Limits<Value>, stated: &[Option<Value>])
        requires whole { length stated.now ≡ address_count self }
        requires full { IsSetUpTo 0 stated.now (limit_in self limits.old) }
        ensures set { IsSetUpTo (address_count self) stated.now (limit_in self limits.new) }
        ensures rest { KeepsOthers self limits.old limits.new }
    {
        for address in 0..self.count() {
            self.set_stated(limits, stated, address);
        }
    }
}

/// Names a place, where that is stated.
fn name_place(limits: &mut Limits<Value>, places: &[bool], location: u16)
    requires whole { length places.now ≡ 4096 }
    requires inside { location < 4096 }
    requires so_far { IsNamedUpTo location places.now limits.old }
    ensures named { IsNamedUpTo (location + 1) places.now limits.new }
    ensures rest { limits.new ≡ record limits.old { places = limits.new.places } }
{
    if places[location as usize] {
        limits.name_place(location);
    }
}

/// Names the places.
fn name_places(limits: &mut Limits<Value>, places: &[bool])
    requires whole { length places.now ≡ 4096 }
    requires none { IsNamedUpTo 0 places.now limits.old }
    ensures named { IsNamedUpTo 4096 places.now limits.new }
    ensures rest { limits.new ≡ record limits.old { places = limits.new.places } }
{
    for location in 0..LOCATIONS {
        name_place(limits, places, location);
    }
}

/// The limits and the named places that are stated. The one error is want of memory.
pub(crate) fn limits_of(alloc: Global, gatherer: &Gatherer) -> Result<Limits<Value>, AllocError>
    requires { IsSized (gathering_of gatherer.now) }
    ensures { IfOk result (AreLimitsOf (gathering_of gatherer.now)) }
{
    let mut limits = Limits::new(alloc)?;
    Table::Cells.set_all(&mut limits, gatherer.cells.as_slice());
    Table::Inputs.set_all(&mut limits, gatherer.inputs.as_slice());
    Table::Outputs.set_all(&mut limits, gatherer.outputs.as_slice());
    name_places(&mut limits, gatherer.places.as_slice());
    let _every = limits.every();
    Ok(limits)
}
