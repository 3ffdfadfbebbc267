//! The orders that multiply and divide, and those that shift the pair of A and Q.

ghost use Rattle.std.specs.Prelude.{◌≡◌, ◌<◌, ◌%◌};
ghost use Rattle.ags_word.specs.Long.{long, shifted_right, wrap_long};
ghost use Rattle.ags_word.specs.Operation.{product, product_high, quotient, shifted_left, long_left_high, long_right_high};
ghost use Rattle.ags_ports.specs.State.{cell, next_location};
ghost use Rattle.ags_ports.specs.Effect.{computes, overflowing, rounds_product, sets_pair, then_clears};
ghost use Rattle.ags_core.specs.OrderReport.{Does};

use crate::cores::Core;
use crate::order_reports::OrderReport;
use ags_word::{Long, Word};

impl Core {
    /// MPY: the pair becomes the product with the cell.
    pub(crate) fn mpy(&mut self, e: u16) -> OrderReport
        requires { e < 4096 }
        ensures { let m = cell self.old e in
            Does (sets_pair product_high self.old m (product self.old.a m)) self.new result }
    {
        let (a, q, over) = self.a().multiply(self.cell(e));
        self.set_pair(a, q, over)
    }

    /// MPR: A becomes the rounded product with the cell, and Q that of the whole product.
    pub(crate) fn mpr(&mut self, e: u16) -> OrderReport
        requires { e < 4096 }
        ensures { Does (rounds_product self.old (cell self.old e)) self.new result }
    {
        let (a, q, over) = self.a().multiply_round(self.cell(e));
        self.set_pair(a, q, over)
    }

    /// MPZ: as MPR, and then the cell is cleared.
    pub(crate) fn mpz(&mut self, e: u16) -> OrderReport
        requires { e < 4096 }
        ensures { Does (then_clears (rounds_product self.old (cell self.old e)) e) self.new result }
    {
        let reported = self.mpr(e);
        self.store(e, Word::ZERO);
        OrderReport::of_store(reported.overflow, e, Word::ZERO)
    }

    /// DVP: A becomes the quotient by the cell; where there is none, A stays, and the order overflows.
    pub(crate) fn dvp(&mut self, e: u16) -> OrderReport
        requires { e < 4096 }
        ensures { Does (computes quotient self.old (cell self.old e)) self.new result }
    {
        let quotient = self.pair().divide(self.cell(e));
        self.set_a(quotient.unwrap_or(self.a), quotient.is_none())
    }

    /// LRS: the pair is shifted right.
    pub(crate) fn lrs(&mut self, y: u16) -> OrderReport
        ensures { let shifted = shifted_right (long self.old.a self.old.q) (y % 64) in
            Does (sets_pair (long_right_high (y % 64)) self.old 0 shifted) self.new result }
    {
        let (a, q) = self.pair().lrs(u32::from(y % 64)).split();
        self.set_pair(a, q, false)
    }

    /// LLS: the pair is shifted left.
    pub(crate) fn lls(&mut self, y: u16) -> OrderReport
        ensures { let left = wrap_long (shifted_left (y % 64) self.old.a self.old.q) in
            Does (sets_pair (long_left_high (y % 64)) self.old 0 left) self.new result }
    {
        let (shifted, over) = self.pair().lls(u32::from(y % 64));
        let (a, q) = shifted.split();
        self.set_pair(a, q, over)
    }

    /// The number that A and Q stand for.
    fn pair(&self) -> Long
        ensures { result ≡ long self.now.a self.now.q }
    {
        Long::of(self.a, self.q)
    }

    /// Sets A and Q, and the indicator where the order overflowed.
    fn set_pair(&mut self, a: Word, q: Word, over: bool) -> OrderReport
        ensures { Does (overflowing over (record self.old { a = a; q = q; location = next_location self.old })) self.new result }
    {
        self.a = a;
        self.q = q;
        self.move_on();
        self.overflow(over)
    }
}
