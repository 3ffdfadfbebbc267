//! Words that are orders.

ghost use Rattle.std.specs.Prelude.{◌≡◌, ℕ, ◌<◌, Bool, IfSome, Some};
ghost use Rattle.ags_isa.specs.declared.orders.Order.{Order};
ghost use Rattle.ags_isa.specs.Naming.{order_word, Names, IsDecoding};

use crate::code_tables::Codes;
use crate::orders::Order;
use ags_word::Word;

/// A code's unit in a word: 2^13.
const CODE: u32 = 8192;

/// The index bit's share of a word: 2^12.
const INDEX: u32 = 4096;

/// What a word names: an order with its index bit and its address.
#[derive(Clone, Copy)]
pub struct Decoded {
    /// The order.
    pub order: Order,
    /// Whether the index bit is set.
    pub indexed: bool,
    /// The address, below 4096.
    pub address: u16,
}

/// The word of an order with an index bit and an address.
pub fn encode(codes: &Codes, order: Order, indexed: bool, address: u16) -> Word
    requires { address < 4096 }
    ensures { result ≡ order_word codes.now order indexed address }
{
    let code = u32::from(codes.code_of(order));
    let index = if indexed { INDEX } else { 0 };
    Word::of(code * CODE + index + u32::from(address)).unwrap()
}

/// What a word names, and nothing where no order has the word's code.
pub fn decode(codes: &Codes, word: Word) -> Option<Decoded>
    ensures named { IsDecoding codes.now word result }
    ensures address { IfSome result (λ decoded. decoded.address < 4096) }
    ensures only { (order : Order) (indexed : Bool) (address : ℕ) → Names codes.now word order indexed address
        → result ≡ Some (record { order = order; indexed = indexed; address = address }) }
{
    let number = word.number();
    let order = codes.order_of((number / CODE) as u8)?;
    Some(Decoded {
        order,
        indexed: number / INDEX % 2 == 1,
        address: (number % INDEX) as u16,
    })
}
