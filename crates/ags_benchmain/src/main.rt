//! The program `agsbench`: the bench over real files and standard output, with a sensor, a pad and a recorder at the machine's
//! registers (docs/BENCH.md).
#![tactic(auto)]

use ags_advice::{Ended, Program, tell};
use ags_benchprocess::{certificate_named, run, words_again};
use ags_edge::{FileShelf, OutSink};
use std::env::args;
use std::io;
use std::process::ExitCode;

fn main(rt: HostRuntime) -> ExitCode {
    let mut shelf = FileShelf::new(&rt, rt.alloc());
    let mut out = OutSink::new(rt.alloc(), io::writer(&rt));
    let words = args(&rt);
    let is_text = words.is_ok();
    let number = run(rt.alloc(), words, &mut shelf, &mut out).number();
    let again = words_again(rt.alloc(), args(&rt));
    let ended = Ended {
        program: Program::AgsBench,
        status: number,
        is_text,
        certificate: certificate_named(&again),
    };
    tell(&rt, ended, &shelf, &out);
    ExitCode::from(number)
}
