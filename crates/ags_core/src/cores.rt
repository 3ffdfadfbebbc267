//! The core: what it holds, how it begins, and what is read of it and set in it.

ghost use Rattle.std.specs.Prelude.{◌≡◌, ◌<◌, length, IfOk, slice_index, slice_set};
ghost use Rattle.ags_ports.specs.declared.machines.Machine.{Machine};
ghost use Rattle.ags_ports.specs.State.{IsState, cell, next_location, cells_with_word};
ghost use Rattle.ags_ports.specs.Effect.{moved_on, overflowing};
ghost use Rattle.ags_image.specs.Image.{IsImage};
ghost use Rattle.ags_core.specs.Core.{IsCore, cells_of, start_state};
ghost use Rattle.ags_core.specs.OrderReport.{Does};

use crate::order_reports::OrderReport;
use ags_image::Image;
use ags_ports::{Machine, Phase};
use ags_word::{ERASABLE, LOCATIONS, Word};
use std::alloc::{AllocError, Global};
use std::marker::Model;

/// The machine as it runs: its registers, its cells, and the words of its input and output registers.
pub struct Core {
    pub(crate) a: Word,
    pub(crate) q: Word,
    pub(crate) index: u8,
    pub(crate) indicator: bool,
    pub(crate) location: u16,
    pub(crate) phase: Phase,
    pub(crate) cells: Vec<Word>,
    pub(crate) inputs: Vec<Word>,
    pub(crate) outputs: Vec<Word>,
}

// Written, so that whoever lets one go calls this, and the checker follows no part of it there.
impl Drop for Core {
    fn drop(self) {
        let Core {
            a: _,
            q: _,
            index: _,
            indicator: _,
            location: _,
            phase: _,
            cells: _,
            inputs: _,
            outputs: _,
        } = self;
    }
}

impl Model for Core {
    ghost use Rattle.ags_ports.specs.State.{State};
    ghost use Rattle.ags_core.specs.Core.{AreHeld};

    ghost Value = { State };

    ghost view = { λ core. record {
      a = core.a;
      q = core.q;
      index = core.index;
      indicator = core.indicator;
      location = core.location;
      phase = core.phase;
      cells = core.cells.items;
      inputs = core.inputs.items;
      outputs = core.outputs.items;
    } };

    ghost invariant = { λ core. AreHeld core.index core.location core.cells.items };
}

impl Core {
    /// A machine's core with an image in its cells, and the first order at a location. All else is 0, the indicator is
    /// clear, and orders run. Its one error is want of memory.
    pub fn new(
        alloc: Global,
        machine: &Machine,
        image: &Image,
        start: u16,
    ) -> Result<Core, AllocError>
        requires { start < 4096 }
        ensures start { IfOk result (λ core. core ≡ start_state machine.now image.now start) }
        ensures state { IfOk result (λ core. IsState machine.now core) }
    {
        let cells = cells_of(alloc, image)?;
        let inputs = vec![in alloc; Word::ZERO; machine.ports.inputs().len()]?;
        let outputs = vec![in alloc; Word::ZERO; machine.ports.outputs().len()]?;
        Ok(Core {
            a: Word::ZERO,
            q: Word::ZERO,
            index: 0,
            indicator: false,
            location: start,
            phase: Phase::Running,
            cells,
            inputs,
            outputs,
        })
    }

    /// A.
    pub fn a(&self) -> Word
        ensures word { result ≡ self.now.a }
        ensures core { IsCore self.now }
    {
        self.a
    }

    /// Q.
    pub fn q(&self) -> Word
        ensures word { result ≡ self.now.q }
        ensures core { IsCore self.now }
    {
        self.q
    }

    /// The index register, from 0 to 7.
    pub fn index(&self) -> u8
        ensures number { result ≡ self.now.index }
        ensures core { IsCore self.now }
    {
        self.index
    }

    /// The overflow indicator.
    pub fn indicator(&self) -> bool
        ensures set { result ≡ self.now.indicator }
        ensures core { IsCore self.now }
    {
        self.indicator
    }

    /// The address of the cell that the next order stands in.
    pub fn location(&self) -> u16
        ensures address { result ≡ self.now.location }
        ensures core { IsCore self.now }
    {
        self.location
    }

    /// Whether orders run.
    pub fn phase(&self) -> Phase
        ensures phase { result ≡ self.now.phase }
        ensures core { IsCore self.now }
    {
        self.phase
    }

    /// The word of the cell at an address.
    pub fn cell(&self, address: u16) -> Word
        requires { address < 4096 }
        ensures word { result ≡ cell self.now address }
        ensures core { IsCore self.now }
    {
        self.cells[address as usize]
    }

    /// The word of the input register at a position of the machine's table.
    pub fn input(&self, position: usize) -> Word
        requires { position < length self.now.inputs }
        ensures word { result ≡ slice_index self.now.inputs position }
        ensures core { IsCore self.now }
    {
        self.inputs[position]
    }

    /// The word of the output register at a position of the machine's table.
    pub fn output(&self, position: usize) -> Word
        requires { position < length self.now.outputs }
        ensures word { result ≡ slice_index self.now.outputs position }
        ensures core { IsCore self.now }
    {
        self.outputs[position]
    }

    /// Sets an erasable cell, one below 4000 octal, and changes nothing else.
    pub fn set_cell(&mut self, address: u16, word: Word)
        requires { address < 2048 }
        ensures after { self.new ≡ record self.old { cells = slice_set self.old.cells address word } }
        ensures state { (machine : Machine) → IsState machine self.old → IsState machine self.new }
    {
        self.cells[address as usize] = word;
    }

    /// Sets the input register at a position of the machine's table, and changes nothing else.
    pub fn set_input(&mut self, position: usize, word: Word)
        requires { position < length self.old.inputs }
        ensures after { self.new ≡ record self.old { inputs = slice_set self.old.inputs position word } }
        ensures state { (machine : Machine) → IsState machine self.old → IsState machine self.new }
    {
        self.inputs[position] = word;
    }

    /// The location after this one; after the last cell comes the first.
    pub(crate) fn next_location(&self) -> u16
        ensures next { result ≡ next_location self.now }
        ensures below { result < 4096 }
    {
        (self.location + 1) % LOCATIONS
    }

    /// Moves the location on.
    pub(crate) fn move_on(&mut self)
        ensures { self.new ≡ moved_on self.old }
    {
        self.location = self.next_location();
    }

    /// Stores a word in the cell at an address, if it isn't fixed.
    pub(crate) fn store(&mut self, address: u16, word: Word)
        ensures { self.new ≡ record self.old { cells = cells_with_word self.old.cells address word } }
    {
        if address < ERASABLE {
            self.cells[address as usize] = word;
        }
    }

    /// Sets the indicator where an order overflowed, and tells so.
    pub(crate) fn overflow(&mut self, over: bool) -> OrderReport
        ensures { Does (overflowing over self.old) self.new result }
    {
        self.indicator = self.indicator || over;
        OrderReport::of(over)
    }
}

/// The words that an image puts into the cells.
fn cells_of(alloc: Global, image: &Image) -> Result<Vec<Word>, AllocError>
    ensures cells { IfOk result (λ cells. cells.items ≡ cells_of image.now) }
    ensures image { IfOk result (λ cells. IsImage image.now) }
{
    let mut cells = Vec::new(alloc);
    for location in 0..LOCATIONS {
        cells.push(image.word_at(location))?;
    }
    Ok(cells)
}
