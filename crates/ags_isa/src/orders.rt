//! The 27 orders and their names.

ghost use Rattle.std.specs.Prelude.{◌≡◌, ◌<◌, IfSome, Some, nat_eq};
ghost use Rattle.std.specs.List.{find};
ghost use Rattle.std.specs.Cmp.Lexicographic.{pointwise};
ghost use Rattle.ags_isa.specs.declared.orders.Order.{Order};
ghost use Rattle.ags_isa.specs.Order.{order_number, order_name};

/// An order of the machine. Its number, as `order as usize`, is its position in the alphabet's order.
#[derive(Clone, Copy)]
pub enum Order {
    /// A becomes its absolute value.
    Abs,
    /// A becomes its sum with the cell.
    Add,
    /// A becomes its sum with the cell, which is then cleared.
    Adz,
    /// A is shifted to the left.
    Als,
    /// The index register is set from the address.
    Axt,
    /// A becomes the cell.
    Cla,
    /// A becomes the cell, which is then cleared.
    Clz,
    /// A becomes its negative.
    Com,
    /// The machine waits for the next pulse.
    Dly,
    /// The pair of A and Q is divided by the cell.
    Dvp,
    /// A becomes an input register.
    Inp,
    /// Q becomes the cell.
    Ldq,
    /// The pair is shifted to the left.
    Lls,
    /// The pair is shifted to the right.
    Lrs,
    /// A becomes its product with the cell, rounded.
    Mpr,
    /// The pair becomes the product of A and the cell.
    Mpy,
    /// A becomes its product with the cell, rounded, and the cell is then cleared.
    Mpz,
    /// An output register becomes A.
    Out,
    /// The cell becomes A.
    Sto,
    /// The cell becomes Q.
    Stq,
    /// The cell is taken from A.
    Sub,
    /// The cell is taken from A, and is then cleared.
    Suz,
    /// A transfer that counts the index register down, where it isn't 0.
    Tix,
    /// A transfer where A is negative.
    Tmi,
    /// A transfer where the overflow indicator is set, which it clears.
    Tov,
    /// A transfer.
    Tra,
    /// A transfer that leaves the transfer back in Q.
    Tsq,
}

impl Order {
    /// The orders, each at its number.
    pub const ALL: [Order; 27] = [
        Order::Abs,
        Order::Add,
        Order::Adz,
        Order::Als,
        Order::Axt,
        Order::Cla,
        Order::Clz,
        Order::Com,
        Order::Dly,
        Order::Dvp,
        Order::Inp,
        Order::Ldq,
        Order::Lls,
        Order::Lrs,
        Order::Mpr,
        Order::Mpy,
        Order::Mpz,
        Order::Out,
        Order::Sto,
        Order::Stq,
        Order::Sub,
        Order::Suz,
        Order::Tix,
        Order::Tmi,
        Order::Tov,
        Order::Tra,
        Order::Tsq,
    ];

    /// The order's position in the alphabet's order.
    pub fn number(self) -> usize
        ensures same { result ≡ order_number self }
        ensures below { result < 27 }
    {
        self as usize
    }

    /// The order at a position.
    pub fn at(number: usize) -> Order
        requires { number < 27 }
        ensures { order_number result ≡ number }
    {
        Order::ALL[number]
    }

    /// The order's name, as a source writes it.
    pub fn name(self) -> &'static str
        ensures { result.now ≡ order_name self }
    {
        match self {
            Order::Abs => "ABS",
            Order::Add => "ADD",
            Order::Adz => "ADZ",
            Order::Als => "ALS",
            Order::Axt => "AXT",
            Order::Cla => "CLA",
            Order::Clz => "CLZ",
            Order::Com => "COM",
            Order::Dly => "DLY",
            Order::Dvp => "DVP",
            Order::Inp => "INP",
            Order::Ldq => "LDQ",
            Order::Lls => "LLS",
            Order::Lrs => "LRS",
            Order::Mpr => "MPR",
            Order::Mpy => "MPY",
            Order::Mpz => "MPZ",
            Order::Out => "OUT",
            Order::Sto => "STO",
            Order::Stq => "STQ",
            Order::Sub => "SUB",
            Order::Suz => "SUZ",
            Order::Tix => "TIX",
            Order::Tmi => "TMI",
            Order::Tov => "TOV",
            Order::Tra => "TRA",
            Order::Tsq => "TSQ",
        }
    }

    /// Whether a text is the order's name.
    fn has_name(self, text: &[u8]) -> bool
        ensures { result ≡ pointwise nat_eq (order_name self) text.now }
    {
        self.name().as_bytes() == text
    }
}

/// The order of a name, and nothing for a text that isn't one of the 27 names, letter for letter.
pub fn order_named(text: &[u8]) -> Option<Order>
    ensures found { IfSome result (λ order. order_name order ≡ text.now) }
    ensures only { (order : Order) → order_name order ≡ text.now → result ≡ Some order }
{
    first_named(&Order::ALL, text)
}

/// The first of these orders that has a name.
fn first_named(orders: &[Order], text: &[u8]) -> Option<Order>
    ensures { result ≡ find (λ order. pointwise nat_eq (order_name order) text.now) orders.now }
{
    orders.iter().find(|order| order.has_name(text)).copied()
}
