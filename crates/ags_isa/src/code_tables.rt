//! Tables of codes.

ghost use Rattle.std.specs.Prelude.{◌≡◌, ◌≢◌, ◌<◌, ◌==◌, ◌↔◌, IsTrue, All, AllPairs, IfSome, Some, None};
ghost use Rattle.std.specs.List.{find};
ghost use Rattle.ags_isa.specs.declared.orders.Order.{Order};
ghost use Rattle.ags_isa.specs.Code.{AreCodes, code_of, order_of, orders_of, standard_codes};

use crate::orders::Order;
use std::marker::Model;

/// The codes of the 27 orders: each below 32, and no two of them equal.
#[derive(Clone, Copy)]
pub struct Codes {
    table: [u8; 27],
    /// The order of each code, so that a word is read without a search.
    orders: [Option<Order>; 32],
}

impl Model for Codes {
    ghost use Rattle.std.specs.Prelude.{◌≡◌, ℕ, List};
    ghost use Rattle.ags_isa.specs.Code.{AreCodes, orders_of};

    ghost Value = { List ℕ };

    ghost view = { λ codes. codes.table };

    ghost invariant = { λ codes. AreCodes codes.table × (codes.orders ≡ orders_of codes.table) };

    ghost inverse = { λ table. record { table = table; orders = orders_of table } };
}

impl Codes {
    /// The codes of the standard machine.
    pub fn standard() -> Codes
        ensures codes { result ≡ standard_codes }
        ensures table { AreCodes result }
    {
        Codes::made_of(&[
            25, 9, 13, 23, 20, 8, 12, 24, 28, 1, 26, 6, 21, 22, 7, 11, 15, 27, 4, 5, 10, 14, 17,
            19, 18, 16, 29,
        ])
    }

    /// The table of these codes, in the alphabetical order of their orders, and nothing where they aren't one: where
    /// a code is above 31 or two are equal.
    pub fn of(table: &[u8; 27]) -> Option<Codes>
        ensures some { AreCodes table.now → result ≡ Some table.now }
        ensures none { ¬ AreCodes table.now → result ≡ None }
    {
        if all_below(table) && all_distinct(table) {
            Some(Codes::made_of(table))
        } else {
            None
        }
    }

    /// The table of these codes, with their orders.
    fn made_of(table: &[u8; 27]) -> Codes
        requires { AreCodes table.now }
        ensures { result ≡ table.now }
    {
        Codes {
            table: *table,
            orders: orders_of(table),
        }
    }

    /// The codes, in the alphabetical order of their orders.
    pub fn table(&self) -> &[u8; 27]
        ensures same { result.now ≡ self.now }
        ensures codes { AreCodes self.now }
    {
        &self.table
    }

    /// The code of an order.
    pub fn code_of(&self, order: Order) -> u8
        ensures code { result ≡ code_of self.now order }
        ensures below { result < 32 }
    {
        self.table[order.number()]
    }

    /// The order of a code, and nothing where no order has it.
    pub(crate) fn order_of(&self, code: u8) -> Option<Order>
        ensures found { IfSome result (λ order. code_of self.now order ≡ code) }
        ensures only { (order : Order) → code_of self.now order ≡ code → result ≡ Some order }
    {
        if code < 32 {
            self.orders[code as usize]
        } else {
            None
        }
    }
}

/// The order of each code.
fn orders_of(table: &[u8; 27]) -> [Option<Order>; 32]
    ensures { result ≡ orders_of table.now }
{
    let mut orders = [None; 32];
    for code in 0..32 {
        orders[code as usize] = order_of(table, code);
    }
    orders
}

/// The order that has a code, and nothing where no order has it.
fn order_of(table: &[u8; 27], code: u8) -> Option<Order>
    ensures { result ≡ order_of table.now code }
{
    first_of(&Order::ALL, table, code)
}

/// The first of these orders that has a code.
fn first_of(orders: &[Order], table: &[u8; 27], code: u8) -> Option<Order>
    ensures { result ≡ find (λ order. code_of table.now order == code) orders.now }
{
    orders
        .iter()
        .find(|order| table[order.number()] == code)
        .copied()
}

/// Each code is below 32.
fn all_below(table: &[u8; 27]) -> bool
    ensures { IsTrue result ↔ All (λ code. code < 32) table.now }
{
    table.iter().all(|code| *code < 32)
}

/// A code is none of these.
fn is_unlike(code: u8, others: &[u8]) -> bool
    ensures { IsTrue result ↔ All (λ other. code ≢ other) others.now }
{
    others.iter().all(|other| *other != code)
}

/// No two codes are equal.
fn all_distinct(codes: &[u8]) -> bool
    ensures { IsTrue result ↔ AllPairs (λ one another. one ≢ another) codes.now }
{
    match codes {
        [] => true,
        [code, others @ ..] => is_unlike(*code, others) && all_distinct(others),
    }
}
