//! The orders that say where the machine goes on, and those that set and count the index register.

ghost use Rattle.std.specs.Prelude.{◌<◌, ◌-◌, ◌%◌, pos, int_lt, nat_eq, false, if◌then◌else◌};
ghost use Rattle.ags_word.specs.Word.{val};
ghost use Rattle.ags_isa.specs.declared.orders.Order.TheVariants.{Tra};
ghost use Rattle.ags_isa.specs.Naming.{order_word};
ghost use Rattle.ags_ports.specs.declared.events.Phase.TheVariants.{Waiting};
ghost use Rattle.ags_ports.specs.State.{next_location};
ghost use Rattle.ags_ports.specs.Effect.{gone_to, leaves, moved_on};
ghost use Rattle.ags_core.specs.OrderReport.{Does};

use crate::cores::Core;
use crate::order_reports::OrderReport;
use ags_isa::{Order, encode};
use ags_ports::{Machine, Phase};

impl Core {
    /// TRA: goes to an address.
    pub(crate) fn tra(&mut self, e: u16) -> OrderReport
        requires { e < 4096 }
        ensures { Does (leaves (gone_to self.old e)) self.new result }
    {
        self.location = e;
        OrderReport::of(false)
    }

    /// TMI: goes there where A is negative.
    pub(crate) fn tmi(&mut self, e: u16) -> OrderReport
        requires { e < 4096 }
        ensures { Does (leaves (if int_lt (val self.old.a) (pos 0) then gone_to self.old e else moved_on self.old))
            self.new result }
    {
        if self.a().value() < 0 {
            self.location = e;
        } else {
            self.move_on();
        }
        OrderReport::of(false)
    }

    /// TOV: where the indicator is set, clears it and goes there.
    pub(crate) fn tov(&mut self, e: u16) -> OrderReport
        requires { e < 4096 }
        ensures { Does (leaves (if self.old.indicator then (record self.old { indicator = false; location = e })
            else moved_on self.old)) self.new result }
    {
        if self.indicator {
            self.indicator = false;
            self.location = e;
        } else {
            self.move_on();
        }
        OrderReport::of(false)
    }

    /// TIX: where the index register isn't 0, lowers it by one and goes to an address.
    pub(crate) fn tix(&mut self, y: u16) -> OrderReport
        requires { y < 4096 }
        ensures { Does (leaves (if nat_eq self.old.index 0 then moved_on self.old
            else (record self.old { index = self.old.index - 1; location = y }))) self.new result }
    {
        if self.index == 0 {
            self.move_on();
        } else {
            self.index -= 1;
            self.location = y;
        }
        OrderReport::of(false)
    }

    /// AXT: sets the index register.
    pub(crate) fn axt(&mut self, y: u16) -> OrderReport
        ensures { Does (leaves (record self.old { index = y % 8; location = next_location self.old })) self.new result }
    {
        self.index = (y % 8) as u8;
        self.move_on();
        OrderReport::of(false)
    }

    /// TSQ: goes to an address, and leaves in Q the order that goes back.
    pub(crate) fn tsq(&mut self, machine: &Machine, e: u16) -> OrderReport
        requires { e < 4096 }
        ensures { Does (leaves (record self.old {
          q = order_word machine.now.codes Tra false (next_location self.old);
          location = e;
        })) self.new result }
    {
        self.q = encode(&machine.codes, Order::Tra, false, self.next_location());
        self.location = e;
        OrderReport::of(false)
    }

    /// DLY: waits, to go on at an address.
    pub(crate) fn dly(&mut self, y: u16) -> OrderReport
        requires { y < 4096 }
        ensures { Does (leaves (record self.old { location = y; phase = Waiting })) self.new result }
    {
        self.location = y;
        self.phase = Phase::Waiting;
        OrderReport::of(false)
    }
}
