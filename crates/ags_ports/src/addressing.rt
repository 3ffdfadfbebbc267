//! The address that an order acts on.

ghost use Rattle.std.specs.Prelude.{◌≡◌, ◌<◌, bit_or};
ghost use Rattle.ags_ports.specs.Effect.{counts_index, effective_at};

use ags_isa::{Decoded, Order};

/// The address that an order acts on: its own one, and where the index bit is set and counts in the order, the bits of that address
/// and of the index register together. The address is below 4096 and the index below 8, so what is answered is below 4096
/// (docs/MACHINE.md, The address that an order acts on). It is inlined, since each step of the machine asks for it.
#[inline]
pub fn effective_address(decoded: Decoded, index: u8) -> u16
    requires address { decoded.address < 4096 }
    requires index { index < 8 }
    ensures address { result ≡ effective_at index decoded.order decoded.indexed decoded.address }
    ensures below { result < 4096 }
{
    if decoded.indexed && counts_index(decoded.order) {
        with_index(decoded.address, index)
    } else {
        decoded.address
    }
}

/// An address with the bits of the index register.
fn with_index(address: u16, index: u8) -> u16
    requires address { address < 4096 }
    requires index { index < 8 }
    ensures bits { result ≡ bit_or address index }
    ensures below { result < 4096 }
{
    address | u16::from(index)
}

/// Whether the index bit counts in an order.
fn counts_index(order: Order) -> bool
    ensures { result ≡ counts_index order }
{
    match order {
        Order::Tix
        | Order::Axt
        | Order::Als
        | Order::Lls
        | Order::Lrs
        | Order::Com
        | Order::Abs
        | Order::Inp
        | Order::Out
        | Order::Dly => false,
        _ => true,
    }
}
