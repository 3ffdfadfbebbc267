//! Scripts over the deck with the program's three devices.

use crate::bench::common::{Case, expect_three};
use ags_bench::Status;

/// The word that the sensor gives, and what comes of a script.
const CASES: [(u32, Case); 10] = [
    // a hundred cycles
    (
        0o001750,
        Case {
            script: "CYCLE 100\nDETACH 3\nSHOW REG\n",
            most: 4096,
            failing: 0,
            status: Status::Done,
            text: "CERTIFIED ROWS 31 CASES 32\nDETACHED 3 LEFT 0 HEARD 100 LAST 001750\nA 777777 Q 404012 X 0 V 0 P 4000 W\nDEVICE 1 LEFT 0 HEARD 0 LAST ------\nDEVICE 2 LEFT 0 HEARD 9 LAST 000037\n",
            kept: &[(0, 0, None), (0, 9, Some(0o000037))],
        },
    ),
    // the first word of the sensor is outside: it has left the plan, and neither the pad nor the recorder was asked
    (
        0o001751,
        Case {
            script: "CYCLE 100\nDETACH 3\nSHOW REG\n",
            most: 4096,
            failing: 0,
            status: Status::No,
            text: "CERTIFIED ROWS 31 CASES 32\nOUTSIDE IN 2001 001751\n",
            kept: &[(99, 0, None), (9, 0, None), (0, 0, None)],
        },
    ),
    (
        0o001751,
        Case {
            script: "FEED 2\nFEED 1\nFEED 2\n",
            most: 4096,
            failing: 0,
            status: Status::No,
            text: "CERTIFIED ROWS 31 CASES 32\nOUTSIDE IN 2001 001751\n",
            kept: &[(99, 0, None), (8, 0, None), (0, 0, None)],
        },
    ),
    // the line of what a run met can't be written: the devices are those where the run stops
    (
        0o001751,
        Case {
            script: "CYCLE 100\nDETACH 3\nSHOW REG\n",
            most: 4096,
            failing: 2,
            status: Status::WriteFault,
            text: "CERTIFIED ROWS 31 CASES 32\n",
            kept: &[(99, 0, None), (9, 0, None), (0, 0, None)],
        },
    ),
    // a cycle feeds the pad and has it hear: the deck gives back what it is fed
    (
        0o001750,
        Case {
            script: "CYCLE 2\nSHOW OUT 6200\n",
            most: 4096,
            failing: 0,
            status: Status::Done,
            text: "CERTIFIED ROWS 31 CASES 32\nOUT 6200 000024\nDEVICE 1 LEFT 98 HEARD 0 LAST ------\nDEVICE 2 LEFT 7 HEARD 2 LAST 000024\nDEVICE 3 LEFT 0 HEARD 2 LAST 000372\n",
            kept: &[
                (98, 0, None),
                (7, 2, Some(0o000024)),
                (0, 2, Some(0o000372)),
            ],
        },
    ),
    // numbers close up
    (
        0o001750,
        Case {
            script: "FEED 1\nDETACH 1\nFEED 1\nDETACH 2\nDETACH 2\n",
            most: 4096,
            failing: 0,
            status: Status::No,
            text: "CERTIFIED ROWS 31 CASES 32\nDETACHED 1 LEFT 99 HEARD 0 LAST ------\nDETACHED 2 LEFT 0 HEARD 0 LAST ------\nNODEVICE LINE 5 DEVICE 2\n",
            kept: &[(8, 0, None)],
        },
    ),
    (
        0o001750,
        Case {
            script: "DETACH 2\nFEED 2\n",
            most: 4096,
            failing: 0,
            status: Status::No,
            text: "CERTIFIED ROWS 31 CASES 32\nDETACHED 2 LEFT 9 HEARD 0 LAST ------\nNOFEED LINE 2 DEVICE 2\n",
            kept: &[(100, 0, None), (0, 0, None)],
        },
    ),
    // a number that no device has, and a device that feeds no register: the devices are as they were made
    (
        0o001750,
        Case {
            script: "FEED 4\n",
            most: 4096,
            failing: 0,
            status: Status::No,
            text: "CERTIFIED ROWS 31 CASES 32\nNODEVICE LINE 1 DEVICE 4\n",
            kept: &[(100, 0, None), (9, 0, None), (0, 0, None)],
        },
    ),
    (
        0o001750,
        Case {
            script: "FEED 0\n",
            most: 4096,
            failing: 0,
            status: Status::No,
            text: "CERTIFIED ROWS 31 CASES 32\nNODEVICE LINE 1 DEVICE 0\n",
            kept: &[(100, 0, None), (9, 0, None), (0, 0, None)],
        },
    ),
    (
        0o001750,
        Case {
            script: "FEED 3\n",
            most: 4096,
            failing: 0,
            status: Status::No,
            text: "CERTIFIED ROWS 31 CASES 32\nNOFEED LINE 1 DEVICE 3\n",
            kept: &[(100, 0, None), (9, 0, None), (0, 0, None)],
        },
    ),
];

#[test]
fn scripts_that_ask_the_devices(rt: HostRuntime) {
    for (first, case) in &CASES {
        expect_three(&rt, *first, case);
    }
}
