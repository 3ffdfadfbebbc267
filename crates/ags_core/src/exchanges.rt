//! The orders that take from an input register and give to an output register.

ghost use Rattle.std.specs.Prelude.{◌≡◌, ◌<◌, IfSome, length};
ghost use Rattle.ags_isa.specs.declared.orders.Order.TheVariants.{Inp, Out};
ghost use Rattle.ags_ports.specs.Port.{position_of, read_at, register_at, set_at};
ghost use Rattle.ags_ports.specs.Effect.{effect};
ghost use Rattle.ags_core.specs.OrderReport.{Does};

use crate::cores::Core;
use crate::order_reports::OrderReport;
use ags_ports::{Machine, Stored};
use ags_word::Word;

impl Core {
    /// INP: A becomes the word of the input register at an address.
    pub(crate) fn inp(&mut self, machine: &Machine, y: u16) -> OrderReport
        requires { length self.old.inputs ≡ length machine.now.ports.inputs }
        ensures { Does (effect machine.now self.old Inp y y) self.new result }
    {
        let position = machine.ports.find_input(y);
        self.a = self.register_at(position);
        self.read(machine, position);
        self.move_on();
        OrderReport {
            took: Some(y),
            ..OrderReport::of(false)
        }
    }

    /// OUT: the output register at an address becomes A.
    pub(crate) fn out(&mut self, machine: &Machine, y: u16) -> OrderReport
        requires { length self.old.outputs ≡ length machine.now.ports.outputs }
        ensures { Does (effect machine.now self.old Out y y) self.new result }
    {
        let word = self.a();
        if let Some(position) = machine.ports.find_output(y) {
            self.outputs[position] = word;
        }
        self.move_on();
        OrderReport {
            gave: Some(Stored { address: y, word }),
            ..OrderReport::of(false)
        }
    }

    /// The word of the input register at a position, and 0 where there is none.
    fn register_at(&self, position: Option<usize>) -> Word
        requires { IfSome position (λ position. position < length self.now.inputs) }
        ensures { result ≡ register_at self.now.inputs position }
    {
        match position {
            Some(position) => self.inputs[position],
            None => Word::ZERO,
        }
    }

    /// Clears the input register at a position, if it holds its word once.
    fn read(&mut self, machine: &Machine, position: Option<usize>)
        requires position { IfSome position (λ position. position < length machine.now.ports.inputs) }
        requires inputs { length self.old.inputs ≡ length machine.now.ports.inputs }
        ensures { self.new ≡ record self.old { inputs = read_at machine.now.ports.inputs self.old.inputs position } }
    {
        if let Some(position) = position {
            if machine.ports.is_once(position) {
                self.inputs[position] = Word::ZERO;
            }
        }
    }

    /// Sets the input register at an address, if there is one.
    pub(crate) fn put(&mut self, machine: &Machine, address: u16, word: Word)
        requires { length self.old.inputs ≡ length machine.now.ports.inputs }
        ensures { self.new ≡ record self.old {
          inputs = set_at self.old.inputs (position_of machine.now.ports.inputs address) word;
        } }
    {
        if let Some(position) = machine.ports.find_input(address) {
            self.inputs[position] = word;
        }
    }
}
