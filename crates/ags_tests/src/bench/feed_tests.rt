//! Devices that feed no input register of the machine, and one whose plan is empty.

use crate::bench::common::{Case, Kept, expect_call, sensor_of};
use crate::command_lines::add;
use ags_bench::Status;

/// The devices as they are made: no register is at 2003, the one at 6001 is an output, and the third has nothing to give.
const MADE: [Kept; 3] = [(3, 0, None), (0, 0, None), (0, 0, None)];

/// A script, its status, and what is written.
const FED: [(&str, Status, &str); 5] = [
    // a device that feeds no input register of the table is told of whatever its plan, and after the number of a device that isn't there
    (
        "FEED 1\n",
        Status::No,
        "CERTIFIED ROWS 31 CASES 32\nNOFEED LINE 1 DEVICE 1\n",
    ),
    (
        "FEED 2\n",
        Status::No,
        "CERTIFIED ROWS 31 CASES 32\nNOFEED LINE 1 DEVICE 2\n",
    ),
    (
        "FEED 4\nFEED 1\n",
        Status::No,
        "CERTIFIED ROWS 31 CASES 32\nNODEVICE LINE 1 DEVICE 4\n",
    ),
    // an empty plan feeds nothing, and a cycle asks no device that feeds no register
    (
        "FEED 3\nSHOW REG\n",
        Status::Done,
        "CERTIFIED ROWS 31 CASES 32\nA 000000 Q 000000 X 0 V 0 P 4000 R\nDEVICE 1 LEFT 3 HEARD 0 LAST ------\nDEVICE 2 LEFT 0 HEARD 0 LAST ------\nDEVICE 3 LEFT 0 HEARD 0 LAST ------\n",
    ),
    (
        "CYCLE 2\n",
        Status::Done,
        "CERTIFIED ROWS 31 CASES 32\nDEVICE 1 LEFT 3 HEARD 0 LAST ------\nDEVICE 2 LEFT 0 HEARD 0 LAST ------\nDEVICE 3 LEFT 0 HEARD 0 LAST ------\n",
    ),
];

#[test]
fn devices_that_feed_nothing(rt: HostRuntime) {
    let alloc = rt.alloc();
    for &(script, status, text) in &FED {
        let mut devices = Vec::new(alloc);
        for (address, count) in [(0o2003, 3), (0o6001, 0), (0o2001, 0)] {
            let sensor = Box::new(alloc, sensor_of(&rt, address, 1, count));
            add(&rt, &mut devices, sensor.expect(&rt, "memory"));
        }
        let case = Case {
            script,
            most: 4096,
            failing: 0,
            status,
            text,
            kept: &MADE,
        };
        expect_call(&rt, &mut devices, &case);
    }
}
