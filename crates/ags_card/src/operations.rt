//! The operations of cards and their names.

ghost use Rattle.std.specs.Prelude.{◌≡◌, nat_eq};
ghost use Rattle.std.specs.List.{find};
ghost use Rattle.std.specs.Cmp.Lexicographic.{pointwise};
ghost use Rattle.ags_card.specs.Operation.{operation_name, operation_named, is_bare};

use ags_isa::{Order, order_named};

/// The operation of a card.
#[derive(Clone, Copy)]
pub(crate) enum Operation {
    /// An order of the machine.
    OfOrder(Order),
    /// The place is set.
    Org,
    /// A symbol is given a value.
    Equ,
    /// Another name of EQU.
    Syn,
    /// The place is moved, after its symbol.
    Bss,
    /// The place is moved, before its symbol.
    Bes,
    /// Decimal numbers.
    Dec,
    /// Octal numbers.
    Oct,
    /// The source ends.
    End,
}

impl Operation {
    /// The operations that are no orders.
    const NO_ORDERS: [Operation; 8] = [
        Operation::Org,
        Operation::Equ,
        Operation::Syn,
        Operation::Bss,
        Operation::Bes,
        Operation::Dec,
        Operation::Oct,
        Operation::End,
    ];

    /// The operation's name, as a card writes it.
    fn name(self) -> &'static str
        ensures { result.now ≡ operation_name self }
    {
        match self {
            Operation::OfOrder(order) => order.name(),
            Operation::Org => "ORG",
            Operation::Equ => "EQU",
            Operation::Syn => "SYN",
            Operation::Bss => "BSS",
            Operation::Bes => "BES",
            Operation::Dec => "DEC",
            Operation::Oct => "OCT",
            Operation::End => "END",
        }
    }

    /// Whether a text is the operation's name.
    fn has_name(self, text: &[u8]) -> bool
        ensures { result ≡ pointwise nat_eq (operation_name self) text.now }
    {
        self.name().as_bytes() == text
    }
}

/// Whether an order stands without an operand.
pub(crate) fn is_bare(order: Order) -> bool
    ensures { result ≡ is_bare order }
{
    matches!(order, Order::Abs | Order::Com)
}

/// The operation of a name, and nothing for a text that is none of the names, letter for letter.
pub(crate) fn operation_named(text: &[u8]) -> Option<Operation>
    ensures { result ≡ operation_named text.now }
{
    match order_named(text) {
        Some(order) => Some(Operation::OfOrder(order)),
        None => first_named(&Operation::NO_ORDERS, text),
    }
}

/// The first of these operations that has a name.
fn first_named(operations: &[Operation], text: &[u8]) -> Option<Operation>
    ensures { result ≡ find (λ operation. pointwise nat_eq (operation_name operation) text.now) operations.now }
{
    operations
        .iter()
        .find(|operation| operation.has_name(text))
        .copied()
}
