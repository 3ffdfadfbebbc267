//! How many steps and puts a play counts, worked by hand; what it prints stands in cases/.

ghost use Rattle.std.specs.Prelude.{◌≤◌, length};
ghost use Rattle.ags_script.specs.Script.{IsReadFor};
ghost use Rattle.ags_script.specs.Limit.{script_limit};

use crate::command_lines::expect_same;
use crate::machine::common::image_of;
use ags_outside::SteadySink;
use ags_ports::Machine;
use ags_run::{PlayError, Played, play};
use ags_script::{SCRIPT_LIMIT, Script, read};
use std::alloc::Global;
use std::process::Abort;

/// The script of a text for a machine.
fn script_of(rt: &impl Abort, alloc: Global, text: &str, machine: &Machine) -> Script
    requires { length text.now ≤ script_limit }
    ensures { IsReadFor machine.now result }
{
    read(alloc, text.as_bytes(), machine)
        .ok()
        .expect(rt, "a script without a fault")
}

/// DLY 4000.
const WAITS: &[(u16, u32)] = &[(0o4000, 0o704000)];

/// INP 2001, OUT 6001, AXT 0005, LDQ 4000, and a word that is no order.
const COPIES: &[(u16, u32)] = &[
    (0o4000, 0o642001),
    (0o4001, 0o666001),
    (0o4002, 0o500005),
    (0o4003, 0o144000),
    (0o4004, 0o000000),
];

/// DVP 4002, of 73 microseconds, TRA 4000, of 10, and the word 1: three cycles end 3, 6 and 9 microseconds late, after 482 steps
/// each, and the fourth after the DVP of 481.
const LOOPS: &[(u16, u32)] = &[(0o4000, 0o024002), (0o4001, 0o404000), (0o4002, 0o000001)];

/// INP 2200, OUT 6200, DLY 4000: what the panel sends is shown to it.
const ECHOES: &[(u16, u32)] = &[(0o4000, 0o642200), (0o4001, 0o666200), (0o4002, 0o704000)];

/// The words in the cells, a script, and how many steps and puts are counted.
const PLAYS: [(&[(u16, u32)], &str, u64, u64); 6] = [
    (WAITS, "PULSE\nSTEP 2\nSHOW REG\nPULSE\nSHOW REG\n", 2, 0),
    (WAITS, "CYCLE 0\n", 0, 0),
    (
        COPIES,
        "SET 2001 012345\nSHOW OUT 6001\nSTEP 2\nSHOW OUT 6001\nSTEP 3\n",
        5,
        1,
    ),
    (LOOPS, "CYCLE 3\nSHOW REG\nSTEP 2\nCYCLE 1\n", 1929, 0),
    (
        ECHOES,
        "KEY CLR 0 4 7 + 0 1 2 3 4 ENTR\nFEED\nFEED\nSTEP 2\n",
        2,
        2,
    ),
    (ECHOES, "KEY CLR 0 4 7 RO\nCYCLE 10\nKEY 9\nFEED\n", 30, 9),
];

/// Plays a script with these words in the cells of the standard machine.
fn played(
    rt: &impl Abort,
    alloc: Global,
    cells: &[(u16, u32)],
    text: &str,
) -> Result<Played, PlayError> {
    assert!(rt; text.len() <= SCRIPT_LIMIT);
    let machine = Machine::standard();
    let script = script_of(rt, alloc, text, &machine);
    let image = image_of(rt, alloc, cells);
    let mut out = SteadySink::new(alloc, 9);
    play(alloc, &machine, &image, &script, None, &mut out)
}

#[test]
fn steps_and_puts_are_counted(rt: HostRuntime) {
    for &(cells, text, steps, puts) in &PLAYS {
        match played(&rt, rt.alloc(), cells, text) {
            Ok(told) => expect_same(&rt, &(text, told.steps, told.puts), &(text, steps, puts)),
            Err(_) => panic!(rt; "{text} isn't played"),
        }
    }
}
