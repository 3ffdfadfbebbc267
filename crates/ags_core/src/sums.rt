//! The orders that compute A alone.

ghost use Rattle.std.specs.Prelude.{◌<◌, ◌%◌};
ghost use Rattle.ags_word.specs.Operation.{sum, difference, negative, size, left_shift};
ghost use Rattle.ags_ports.specs.State.{cell, next_location};
ghost use Rattle.ags_ports.specs.Effect.{computes, overflowing, then_clears};
ghost use Rattle.ags_core.specs.OrderReport.{Does};

use crate::cores::Core;
use crate::order_reports::OrderReport;
use ags_word::Word;

impl Core {
    /// ADD: the sum with the cell.
    pub(crate) fn add(&mut self, e: u16) -> OrderReport
        requires { e < 4096 }
        ensures { Does (computes sum self.old (cell self.old e)) self.new result }
    {
        let (word, over) = self.a().add(self.cell(e));
        self.set_a(word, over)
    }

    /// SUB: A less the cell.
    pub(crate) fn sub(&mut self, e: u16) -> OrderReport
        requires { e < 4096 }
        ensures { Does (computes difference self.old (cell self.old e)) self.new result }
    {
        let (word, over) = self.a().sub(self.cell(e));
        self.set_a(word, over)
    }

    /// ADZ: as ADD, and then the cell is cleared.
    pub(crate) fn adz(&mut self, e: u16) -> OrderReport
        requires { e < 4096 }
        ensures { Does (then_clears (computes sum self.old (cell self.old e)) e) self.new result }
    {
        let reported = self.add(e);
        self.store(e, Word::ZERO);
        OrderReport::of_store(reported.overflow, e, Word::ZERO)
    }

    /// SUZ: as SUB, and then the cell is cleared.
    pub(crate) fn suz(&mut self, e: u16) -> OrderReport
        requires { e < 4096 }
        ensures { Does (then_clears (computes difference self.old (cell self.old e)) e) self.new result }
    {
        let reported = self.sub(e);
        self.store(e, Word::ZERO);
        OrderReport::of_store(reported.overflow, e, Word::ZERO)
    }

    /// COM: the negative.
    pub(crate) fn com(&mut self) -> OrderReport
        ensures { Does (computes negative self.old 0) self.new result }
    {
        let (word, over) = self.a().com();
        self.set_a(word, over)
    }

    /// ABS: the absolute value.
    pub(crate) fn abs(&mut self) -> OrderReport
        ensures { Does (computes size self.old 0) self.new result }
    {
        let (word, over) = self.a().abs();
        self.set_a(word, over)
    }

    /// ALS: the left shift.
    pub(crate) fn als(&mut self, y: u16) -> OrderReport
        ensures { Does (computes (left_shift (y % 64)) self.old 0) self.new result }
    {
        let (word, over) = self.a().als(u32::from(y % 64));
        self.set_a(word, over)
    }

    /// Sets A, and the indicator where the order overflowed.
    pub(crate) fn set_a(&mut self, word: Word, over: bool) -> OrderReport
        ensures { Does (overflowing over (record self.old { a = word; location = next_location self.old })) self.new result }
    {
        self.a = word;
        self.move_on();
        self.overflow(over)
    }
}
