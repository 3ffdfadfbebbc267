//! Orders by their numbers, and texts that name none, which no field of a card is.

use crate::common::expect_same;
use ags_isa::{Order, order_named};

/// Texts that name no order.
const NO_NAMES: [&[u8]; 3] = [b"", b" CLA", b"CLA "];

#[test]
fn orders_by_number_and_by_name(rt: HostRuntime) {
    for number in 0..27 {
        expect_same(&rt, &Order::ALL[number].number(), &number);
    }
    for &text in &NO_NAMES {
        assert!(rt; order_named(text).is_none());
    }
    // nor is the empty text a decimal
    assert!(rt; ags_decimal::read(b"").is_none());
}
