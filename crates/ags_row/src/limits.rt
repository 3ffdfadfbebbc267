//! Limits: what each cell and each port may hold wherever the machine stands.

ghost use Rattle.std.specs.Prelude.{◌≡◌, ◌<◌, IfOk, replicate};
ghost use Rattle.ags_row.specs.Limit.{AreFullLimits, AreWholeLimits, cell_limit, input_limit, output_limit, is_named, SetsCell, SetsInput, SetsOutput, NamesPlace};

use ags_domain::Domain;
use ags_word::{ERASABLE, LOCATIONS};
use std::alloc::{AllocError, Global};
use std::marker::Model;

/// What each erasable cell, each input register and each output register may hold, and the locations that are named as places
/// of an overflow.
#[derive(Drop)]
pub struct Limits<D: Domain> {
    cells: Vec<D>,
    inputs: Vec<D>,
    outputs: Vec<D>,
    places: Vec<bool>,
    every: D,
}

impl<D: Domain> Model for Limits<D> {
    ghost use Rattle.ags_row.specs.Limit.{Limiting, AreWholeLimits};

    ghost Value = { Limiting D };

    ghost view = { λ limits. record {
      cells = limits.cells.items;
      inputs = limits.inputs.items;
      outputs = limits.outputs.items;
      places = limits.places.items;
      every = limits.every;
    } };

    ghost invariant = { λ limits. AreWholeLimits D.meaning (record {
      cells = limits.cells.items;
      inputs = limits.inputs.items;
      outputs = limits.outputs.items;
      places = limits.places.items;
      every = limits.every;
    }) };
}

impl<D: Domain> Limits<D> {
    /// Limits that let every word be, and name no place. The one error is want of memory.
    pub fn new(alloc: Global) -> Result<Limits<D>, AllocError>
        ensures { IfOk result (AreFullLimits D.meaning) }
    {
        let every = D::full();
        Ok(Limits {
            cells: repeated(alloc, every, ERASABLE as usize)?,
            inputs: repeated(alloc, every, LOCATIONS as usize)?,
            outputs: repeated(alloc, every, LOCATIONS as usize)?,
            places: repeated(alloc, false, LOCATIONS as usize)?,
            every,
        })
    }

    /// The set of every word, which stands where no other was set. There is a limit for each erasable cell and for each address.
    pub fn every(&self) -> D
        ensures every { result ≡ self.now.every }
        ensures whole { AreWholeLimits D.meaning self.now }
    {
        self.every
    }

    /// What the erasable cell at an address may hold.
    pub fn cell(&self, address: u16) -> D
        requires { address < 2048 }
        ensures { result ≡ cell_limit self.now address }
    {
        self.cells[address as usize]
    }

    /// The same, lent.
    pub(crate) fn cell_at(&self, address: u16) -> &D
        requires { address < 2048 }
        ensures { result.now ≡ cell_limit self.now address }
    {
        &self.cells[address as usize]
    }

    /// What the input register at an address may hold.
    pub fn input(&self, address: u16) -> D
        requires { address < 4096 }
        ensures { result ≡ input_limit self.now address }
    {
        self.inputs[address as usize]
    }

    /// What the output register at an address may hold.
    pub fn output(&self, address: u16) -> D
        requires { address < 4096 }
        ensures { result ≡ output_limit self.now address }
    {
        self.outputs[address as usize]
    }

    /// Whether a location is named as a place of an overflow.
    pub fn may(&self, location: u16) -> bool
        requires { location < 4096 }
        ensures { result ≡ is_named self.now location }
    {
        self.places[location as usize]
    }

    /// Sets what an erasable cell may hold.
    pub fn set_cell(&mut self, address: u16, value: D)
        requires { address < 2048 }
        ensures { SetsCell self.old self.new address value }
    {
        self.cells[address as usize] = value;
    }

    /// Sets what the input register at an address may hold.
    pub fn set_input(&mut self, address: u16, value: D)
        requires { address < 4096 }
        ensures { SetsInput self.old self.new address value }
    {
        self.inputs[address as usize] = value;
    }

    /// Sets what the output register at an address may hold.
    pub fn set_output(&mut self, address: u16, value: D)
        requires { address < 4096 }
        ensures { SetsOutput self.old self.new address value }
    {
        self.outputs[address as usize] = value;
    }

    /// Names a location as a place of an overflow.
    pub fn name_place(&mut self, location: u16)
        requires { location < 4096 }
        ensures { NamesPlace self.old self.new location }
    {
        self.places[location as usize] = true;
    }
}

/// A list of one entry, so many times.
fn repeated<E: Copy>(alloc: Global, entry: E, count: usize) -> Result<Vec<E>, AllocError>
    ensures { IfOk result (λ list. list.items ≡ replicate count entry) }
{
    let mut list = Vec::new(alloc);
    for _ in 0..count {
        list.push(entry)?;
    }
    Ok(list)
}
