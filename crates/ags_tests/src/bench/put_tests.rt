//! A put that fails at each position of a run's output, and the devices each time.

use crate::bench::common::{Case, Kept, expect_three};
use ags_bench::Status;
use std::process::Abort;

/// The script's output.
const OUTPUT: &str = "CERTIFIED ROWS 31 CASES 32
DETACHED 3 LEFT 0 HEARD 100 LAST 001750
A 777777 Q 404012 X 0 V 0 P 4000 W
DEVICE 1 LEFT 0 HEARD 0 LAST ------
DEVICE 2 LEFT 0 HEARD 9 LAST 000037
";

/// The devices where the output fails in the line of a position: none was asked before the verdict's is written, the hundred cycles
/// are made before the second, and the third device leaves with it.
fn kept_in(position: usize) -> &'static [Kept] {
    match position {
        0 => &[(100, 0, None), (9, 0, None), (0, 0, None)],
        1 => &[
            (0, 0, None),
            (0, 9, Some(0o000037)),
            (0, 100, Some(0o001750)),
        ],
        _ => &[(0, 0, None), (0, 9, Some(0o000037))],
    }
}

/// Expects the output up to each put that fails, where so many bytes are put at once: lines, or single ones.
fn fail_each_put(rt: &(impl AllocGlobal + Abort), most: usize) {
    let mut failing = 0u64;
    let mut position = 0usize;
    let mut begins = true;
    for (cut, byte) in OUTPUT.bytes().enumerate() {
        if begins || most == 1 {
            failing = failing.wrapping_add(1);
            let case = Case {
                script: "CYCLE 100\nDETACH 3\nSHOW REG\n",
                most,
                failing,
                status: Status::WriteFault,
                text: OUTPUT.get(..cut).expect(rt, "a text of ASCII"),
                kept: kept_in(position),
            };
            expect_three(rt, 0o001750, &case);
        }
        begins = byte == b'\n';
        if begins {
            position = position.wrapping_add(1);
        }
    }
}

#[test]
fn put_fails_at_each_line_and_at_each_byte(rt: HostRuntime) {
    fail_each_put(&rt, 4096);
    fail_each_put(&rt, 1);
}
