//! The program as a process: `ags_main` over real files and standard output, and the number that it ends with. `run` does
//! what a process does over any shelf and any sink; only making the real ones, telling a person, and the number are left
//! to `exit_number`, which has no branch. It stands on `ags_outside`, `ags_edge`, `ags_plan` and `ags_top`,
//! and on `ags_advice` and `ags_command` for what a person is told; the programs above are one line each.
#![tactic(auto)]

mod names;
mod running;

ghost use Rattle.std.specs.Prelude.{◌≡◌, ◌≢◌, IfOk, IfErr, drop, map};
ghost use Rattle.std.specs.IoError.{error_kind};
ghost use Rattle.std.specs.String.{string_bytes};
ghost use Rattle.std.specs.Vec.Iter.{into_iter_items};
ghost use Rattle.ags_process.specs.Ended.{ExitsFor};

use ags_advice::{Ended, Program, tell};
use ags_edge::{FileShelf, OutSink};
use names::certificate_named;
use running::words_of;
pub use running::{Ran, run, run_over};
use std::env::Args;
use std::fs::Files;
use std::io::{self, ErrorKind};

/// Runs the program as a process, and answers the number that it ends with (the README, Commands): that of a status which
/// answers the arguments after the program's name for some files, since the system tells nothing of them, or of one that
/// stops; 11 where there was no memory for the arguments, and 3 where one of them isn't UTF-8. What it reads and writes is
/// what `run` says of any shelf and sink, these being the real ones. The arguments come twice, as the system hands them over: the
/// second time their names are for a person, who is told of a run that isn't answered as asked.
pub fn exit_number<R: Files + Print + Eprint + AllocGlobal>(
    rt: &R,
    arguments: io::Result<Args>,
    again: io::Result<Args>,
) -> u8
    ensures ends { IfOk arguments (λ all. ExitsFor (map string_bytes (drop 1 (into_iter_items all))) result) }
    ensures memory { IfErr arguments (λ error. error_kind error ≡ ErrorKind.OutOfMemory → result ≡ 11) }
    ensures no_text { IfErr arguments (λ error. error_kind error ≢ ErrorKind.OutOfMemory → result ≡ 3) }
{
    let mut shelf = FileShelf::new(rt, rt.alloc());
    let mut out = OutSink::new(rt.alloc(), io::writer(rt));
    let is_text = arguments.is_ok();
    let status = run(rt.alloc(), arguments, &mut shelf, &mut out).ended();
    let number = status.number();
    let words = words_of(rt.alloc(), again);
    let ended = Ended {
        program: Program::Ags,
        status: number,
        is_text,
        certificate: certificate_named(&words),
    };
    tell(rt, ended, &shelf, &out);
    number
}
