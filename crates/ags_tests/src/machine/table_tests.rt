//! The ends of what tables made by hand may hold; of a machine file its reader tells them before a table is made.

use crate::command_lines::expect_same;
use ags_isa::{Codes, Order};
use ags_ports::{Port, Ports, Times};

/// A register at an address that holds its word.
const FIRST: Port = Port {
    address: 0,
    once: false,
};

const SIXTH: Port = Port {
    address: 5,
    ..FIRST
};

const LAST: Port = Port {
    address: 4095,
    ..FIRST
};

const PAST: Port = Port {
    address: 4096,
    ..FIRST
};

/// Input registers and output registers that make no table: an address past the memory, or one that comes twice.
const NO_PORTS: [(&[Port], &[Port]); 4] = [
    (&[PAST], &[]),
    (&[], &[SIXTH, PAST]),
    (&[SIXTH, FIRST, SIXTH], &[]),
    (&[], &[SIXTH, SIXTH]),
];

#[test]
fn ends_of_registers(rt: HostRuntime) {
    assert!(rt; Ports::of(&[FIRST, LAST], &[LAST, FIRST]).is_some());
    for &(inputs, outputs) in &NO_PORTS {
        assert!(rt; Ports::of(inputs, outputs).is_none());
    }
    // at most 32 of each direction
    let mut many = [FIRST; 33];
    for position in 0..33 {
        many[position].address = position as u16;
    }
    assert!(rt; Ports::of(&many[..32], &many[1..]).is_some());
    assert!(rt; Ports::of(&many, &[]).is_none() && Ports::of(&[], &many).is_none());
}

#[test]
fn ends_of_codes(rt: HostRuntime) {
    // a table that runs backwards, from 31 for ABS to 5 for TSQ
    let mut table = [0; 27];
    for place in 0..27 {
        table[place] = 31 - place as u8;
    }
    let codes = Codes::of(&table).expect(&rt, "distinct codes below 32");
    expect_same(
        &rt,
        &(codes.code_of(Order::Abs), codes.code_of(Order::Tsq)),
        &(31, 5),
    );
    // a code past the last one, and one that comes twice
    table[26] = 32;
    assert!(rt; Codes::of(&table).is_none());
    table[26] = 31;
    assert!(rt; Codes::of(&table).is_none());
}

/// A time of TSQ in a table where all other orders take 1 microsecond, and whether there is such a table.
const TIMES: [(u32, bool); 3] = [(1000, true), (1001, false), (0, false)];

#[test]
fn ends_of_times(rt: HostRuntime) {
    for &(micros, made) in &TIMES {
        let mut times = [1; 27];
        times[26] = micros;
        let told = Times::of(&times).map(|table| table.time_of(Order::Tsq));
        expect_same(&rt, &told, &if made { Some(micros) } else { None });
    }
}
