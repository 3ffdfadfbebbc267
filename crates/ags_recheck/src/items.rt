//! What is kept of the rows.

ghost use Rattle.std.specs.Prelude.{◌≡◌, ◌+◌, ◌<◌, ◌≤◌, ℕ, Ok, Err, false, IfOk, length};
ghost use Rattle.ags_domain.specs.Value.{value_meaning};
ghost use Rattle.ags_domain.specs.declared.values.Value.{Value};
ghost use Rattle.ags_verdict.specs.Fault.{refusal_of};
ghost use Rattle.ags_verdict.specs.declared.verdicts.RowFault.{RowFault};
ghost use Rattle.ags_verdict.specs.Counting.{HasCases};
ghost use Rattle.ags_recheck.specs.Locations.{has_location};
ghost use Rattle.ags_recheck.specs.Kept.{IsItemKept};

use crate::locations::Locations;
use crate::noting::row_noted;
use ags_certtype::Cert;
use ags_check::{Refusal, RowFault, refusal_of};
use ags_domain::Value;
use ags_image::Image;
use ags_ports::Machine;
use ags_row::Row;
use ags_steps::Steps;
use std::alloc::{AllocError, Global};
use std::sync::ledger::Ledger;

/// What is kept of a row: how many cases it has, or what fails first in it; and where its posts go.
#[derive(Drop)]
pub struct Item {
    /// What comes of the row.
    pub(crate) outcome: Result<u64, RowFault>,
    /// The locations of its posts.
    pub(crate) locations: Locations,
}

impl Item {
    /// Judges a row.
    pub(crate) fn judge<L: Ledger>(
        &mut self,
        machine: &Machine,
        image: &Image,
        cert: &Cert,
        row: &Row<Value>,
        steps: &mut Steps<L>,
    )
        ensures kept { IsItemKept machine.now image.now cert.now row.now self.new }
        ensures steps { (cases : ℕ) → HasCases value_meaning image.now cert.now.limits row.now cases → steps.new ≤ steps.old + cases }
    {
        self.outcome = row_noted(machine, image, cert, row, &mut self.locations, steps);
    }

    /// Whether a post of the row goes to one of two locations.
    pub(crate) fn has_one(&self, one: u16, other: u16) -> bool
        requires one { one < 4096 }
        requires other { other < 4096 }
        ensures none { result ≡ false → has_location self.now.locations one ≡ false }
        ensures neither { result ≡ false → has_location self.now.locations other ≡ false }
        ensures both { has_location self.now.locations one ≡ false → has_location self.now.locations other ≡ false → result ≡ false }
    {
        self.locations.has(one) || self.locations.has(other)
    }
}

/// Room for what is kept of so many rows. The one error is want of memory.
pub(crate) fn room_for(alloc: Global, count: usize) -> Result<Vec<Item>, AllocError>
    ensures { IfOk result (λ items. length items.items ≡ count) }
{
    let mut items = Vec::with_capacity(alloc, count)?;
    for _ in 0..count {
        items.push(Item {
            outcome: Ok(0),
            locations: Locations::new(),
        })?;
    }
    Ok(items)
}

/// What is kept of a row, told by its number.
pub(crate) fn told(row: u32, item: &Item) -> Result<u64, Refusal>
    ensures counted { (count : ℕ) → item.now.outcome ≡ Ok count → result ≡ Ok count }
    ensures refused { (fault : RowFault Value) → item.now.outcome ≡ Err fault → result ≡ Err (refusal_of row fault) }
{
    match &item.outcome {
        Ok(count) => Ok(*count),
        Err(fault) => Err(refusal_of(row, fault)),
    }
}
