//! The orders that take a word from a cell, or store one.

ghost use Rattle.std.specs.Prelude.{◌<◌};
ghost use Rattle.ags_ports.specs.State.{cell, next_location};
ghost use Rattle.ags_ports.specs.Effect.{leaves, loads, moved_on, then_clears, then_stores};
ghost use Rattle.ags_core.specs.OrderReport.{Does};

use crate::cores::Core;
use crate::order_reports::OrderReport;
use ags_word::Word;

impl Core {
    /// CLA: A becomes the cell.
    pub(crate) fn cla(&mut self, e: u16) -> OrderReport
        requires { e < 4096 }
        ensures { Does (loads self.old (cell self.old e)) self.new result }
    {
        let next = self.next_location();
        self.a = self.cells[e as usize];
        self.location = next;
        OrderReport::of(false)
    }

    /// LDQ: Q becomes the cell.
    pub(crate) fn ldq(&mut self, e: u16) -> OrderReport
        requires { e < 4096 }
        ensures { Does (leaves (record self.old { q = cell self.old e; location = next_location self.old })) self.new result }
    {
        let next = self.next_location();
        self.q = self.cells[e as usize];
        self.location = next;
        OrderReport::of(false)
    }

    /// STO: the cell becomes A.
    pub(crate) fn sto(&mut self, e: u16) -> OrderReport
        ensures { Does (then_stores (leaves (moved_on self.old)) e self.old.a) self.new result }
    {
        let word = self.a();
        self.move_on();
        self.store(e, word);
        OrderReport::of_store(false, e, word)
    }

    /// STQ: the cell becomes Q.
    pub(crate) fn stq(&mut self, e: u16) -> OrderReport
        ensures { Does (then_stores (leaves (moved_on self.old)) e self.old.q) self.new result }
    {
        let word = self.q();
        self.move_on();
        self.store(e, word);
        OrderReport::of_store(false, e, word)
    }

    /// CLZ: as CLA, and then the cell is cleared.
    pub(crate) fn clz(&mut self, e: u16) -> OrderReport
        requires { e < 4096 }
        ensures { Does (then_clears (loads self.old (cell self.old e)) e) self.new result }
    {
        let reported = self.cla(e);
        self.store(e, Word::ZERO);
        OrderReport::of_store(reported.overflow, e, Word::ZERO)
    }
}
