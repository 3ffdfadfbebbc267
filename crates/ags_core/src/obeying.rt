//! One order: what it does at the address that it acts on.

ghost use Rattle.std.specs.Prelude.{◌≡◌, ◌<◌, length};
ghost use Rattle.ags_ports.specs.Effect.{effect, effective};
ghost use Rattle.ags_core.specs.OrderReport.{Does};

use crate::cores::Core;
use crate::order_reports::OrderReport;
use ags_isa::{Decoded, Order};
use ags_ports::{Machine, effective_address};

impl Core {
    /// Does what an order does.
    pub(crate) fn obey(&mut self, machine: &Machine, decoded: Decoded) -> OrderReport
        requires address { decoded.address < 4096 }
        requires inputs { length self.old.inputs ≡ length machine.now.ports.inputs }
        requires outputs { length self.old.outputs ≡ length machine.now.ports.outputs }
        ensures { Does (effect machine.now self.old decoded.order
            (effective self.old decoded.order decoded.indexed decoded.address) decoded.address) self.new result }
    {
        let e = effective_address(decoded, self.index);
        self.do_order(machine, decoded.order, e, decoded.address)
    }

    /// Does what an order does at an address y, where it acts on an address e.
    fn do_order(&mut self, machine: &Machine, order: Order, e: u16, y: u16) -> OrderReport
        requires acts_on { e < 4096 }
        requires address { y < 4096 }
        requires inputs { length self.old.inputs ≡ length machine.now.ports.inputs }
        requires outputs { length self.old.outputs ≡ length machine.now.ports.outputs }
        ensures { Does (effect machine.now self.old order e y) self.new result }
    {
        match order {
            Order::Abs => self.abs(),
            Order::Add => self.add(e),
            Order::Adz => self.adz(e),
            Order::Als => self.als(y),
            Order::Axt => self.axt(y),
            Order::Cla => self.cla(e),
            Order::Clz => self.clz(e),
            Order::Com => self.com(),
            Order::Dly => self.dly(y),
            Order::Dvp => self.dvp(e),
            Order::Inp => self.inp(machine, y),
            Order::Ldq => self.ldq(e),
            Order::Lls => self.lls(y),
            Order::Lrs => self.lrs(y),
            Order::Mpr => self.mpr(e),
            Order::Mpy => self.mpy(e),
            Order::Mpz => self.mpz(e),
            Order::Out => self.out(machine, y),
            Order::Sto => self.sto(e),
            Order::Stq => self.stq(e),
            Order::Sub => self.sub(e),
            Order::Suz => self.suz(e),
            Order::Tix => self.tix(y),
            Order::Tmi => self.tmi(e),
            Order::Tov => self.tov(e),
            Order::Tra => self.tra(e),
            Order::Tsq => self.tsq(machine, e),
        }
    }
}
