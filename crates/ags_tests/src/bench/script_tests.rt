//! The reader of bench scripts. The rows are typed by hand from docs/BENCH.md.

use crate::command_lines::expect_same;
use ags_bench::{BenchCommand, BenchScript, read};
use ags_ports::Machine;
use ags_script::ScriptError;
use std::alloc::Global;
use std::process::Abort;

/// What is read of a text for the standard machine.
fn read_text(rt: &impl Abort, alloc: Global, text: &str) -> Result<BenchScript, ScriptError> {
    let bytes = text.as_bytes();
    assert!(rt; bytes.len() <= 4_194_304);
    read(alloc, bytes, &Machine::standard())
}

/// The parts of a command with its line's number: the line, which form of line it is, and its number, 0 where it has none.
fn parts((line, command): (u32, BenchCommand)) -> (u32, u8, u32) {
    match command {
        BenchCommand::Step(count) => (line, 0, count),
        BenchCommand::Pulse => (line, 1, 0),
        BenchCommand::Cycle(count) => (line, 2, count),
        BenchCommand::ShowReg => (line, 3, 0),
        BenchCommand::ShowCell(address) => (line, 4, u32::from(address)),
        BenchCommand::ShowOut(address) => (line, 5, u32::from(address)),
        BenchCommand::Feed(device) => (line, 6, device),
        BenchCommand::Detach(device) => (line, 7, device),
    }
}

/// Expects the commands of a text, each with its line's number.
fn expect_commands(rt: &(impl AllocGlobal + Abort), text: &str, wanted: &[(u32, BenchCommand)]) {
    let script = read_text(rt, rt.alloc(), text).ok().expect(rt, text);
    expect_same(rt, &script.len(), &wanted.len());
    for position in 0..script.len() {
        assert!(rt; position < wanted.len());
        assert!(rt;
            parts(script.nth(position)) == parts(wanted[position]),
            "{text}"
        );
    }
}

/// A script with each form of line.
const EACH_FORM: &str =
    "STEP 3\nPULSE\n# none\n\nCYCLE 007\r\n\tSHOW  REG \nSHOW CELL 7777\nSHOW OUT 6200\nFEED 1\nDETACH 000000002\nFEED 0";

/// Its commands, each with its line's number.
const COMMANDS: [(u32, BenchCommand); 9] = [
    (1, BenchCommand::Step(3)),
    (2, BenchCommand::Pulse),
    (5, BenchCommand::Cycle(7)),
    (6, BenchCommand::ShowReg),
    (7, BenchCommand::ShowCell(0o7777)),
    (8, BenchCommand::ShowOut(0o6200)),
    (9, BenchCommand::Feed(1)),
    (10, BenchCommand::Detach(2)),
    (11, BenchCommand::Feed(0)),
];

#[test]
fn each_line_is_read(rt: HostRuntime) {
    expect_commands(&rt, EACH_FORM, &COMMANDS);
    expect_commands(&rt, "", &[]);
    expect_commands(&rt, "CYCLE 5000\n", &[(1, BenchCommand::Cycle(5000))]);
}

#[test]
fn laws_can_be_called() {
    ags_benchscript::laws::lines_spell_what_is_read();
    ags_benchscript::laws::script_means_one_thing();
    ags_benchscript::laws::scripts_suit_their_machine();
}
