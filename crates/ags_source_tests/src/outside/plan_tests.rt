//! A tiny program of its own, which shows that the walk knows nothing of what a program is for: two kinds of files, one work.
//! What it prints is typed by hand from its definition.

ghost use Rattle.std.specs.Prelude.{◌≡◌, [], ◌∷◌, codes};
ghost use Rattle.std.specs.Result.{result_map_both};
ghost use Rattle.ags_outside.specs.Count.{HasCause};
ghost use Rattle.ags_plan.specs.Loading.{Loads, LoadsFile, end_of, is_absence, is_read_fault};
ghost use Rattle.ags_source_tests.specs.Tiny as small;

use crate::common::expect_same;
use crate::outside::common::shelf_of;
use ags_outside::{SendError, Shelf, Sink, SteadyShelf, SteadySink, send};
use ags_plan::{Loader, Program, Stop, Unloaded, fetch_file, run};
use std::alloc::{AllocError, Global};
use std::process::Abort;

/// The tiny program. Its statuses are numbers: 0 done, 1 absent, 2 read fault, 3 write fault, 4 too long, 5 memory, 6 no key.
struct Tiny;

/// Loads the key of a name.
fn load_key<'a, S: Shelf>(
    alloc: Global,
    name: &'a str,
    shelf: &mut S,
) -> Result<(), Unloaded<'a, u8>>
    ensures same { S.told shelf.new ≡ S.told shelf.old }
    ensures loads { LoadsFile small.tiny (S.told shelf.old) small.Key name.entry.now (result_map_both (λ key. key) (end_of small.tiny (λ _. codes "NO KEY\n") (λ _. 6)) result) }
    ensures faults { HasCause (S.faults shelf.old) (S.faults shelf.new) (is_read_fault result) }
    ensures absences { HasCause (S.absences shelf.old) (S.absences shelf.new) (is_absence result) }
{
    let key: Vec<u8> = fetch_file(alloc, shelf, name, 1)?;
    if key.as_slice() == b"K".as_slice() {
        Ok(())
    } else {
        Err(Unloaded::Refused(0))
    }
}

/// Loads the text of a name.
fn load_text<'a, S: Shelf>(
    alloc: Global,
    name: &'a str,
    shelf: &mut S,
) -> Result<Vec<u8>, Unloaded<'a, u8>>
    ensures loads { LoadsFile small.tiny (S.told shelf.old) small.Text name.entry.now (result_map_both (λ bytes. bytes.items) (end_of small.tiny (λ _. codes "NO KEY\n") (λ _. 6)) result) }
    ensures faults { HasCause (S.faults shelf.old) (S.faults shelf.new) (is_read_fault result) }
    ensures absences { HasCause (S.absences shelf.old) (S.absences shelf.new) (is_absence result) }
{
    fetch_file(alloc, shelf, name, 9)
}

/// Loads the key and the text of these names.
fn load_both<'a, S: Shelf>(
    alloc: Global,
    key: &'a str,
    text: &'a str,
    shelf: &mut S,
) -> Result<Vec<u8>, Unloaded<'a, u8>>
    ensures loads { Loads small.tiny (S.told shelf.old) (small.tiny_plan (key.entry.now ∷ text.entry.now ∷ []))
        (result_map_both (λ bytes. bytes.items) (end_of small.tiny (λ _. codes "NO KEY\n") (λ _. 6)) result) }
    ensures faults { HasCause (S.faults shelf.old) (S.faults shelf.new) (is_read_fault result) }
    ensures absences { HasCause (S.absences shelf.old) (S.absences shelf.new) (is_absence result) }
{
    load_key(alloc, key, shelf)?;
    load_text(alloc, text, shelf)
}

impl Loader for Tiny {
    type Status = u8;

    type Refusal = u8;

    type Work = Vec<u8>;

    ghost definition = { small.tiny };

    ghost plan_of = { small.tiny_plan };

    ghost work_of = { λ bytes. bytes.items };

    ghost ready = { λ _. Unit {0} };

    ghost line_of = { λ _. codes "NO KEY\n" };

    ghost status_of = { λ _. 6 };

    fn stop_status(stop: Stop) -> u8 {
        match stop {
            Stop::Absent => 1,
            Stop::ReadFault => 2,
            Stop::WriteFault => 3,
            Stop::TooLong => 4,
            Stop::NoMemory => 5,
        }
    }

    fn refusal_status(_refusal: &u8) -> u8 {
        6
    }

    fn refusal_line(alloc: Global, _refusal: &u8) -> Result<String, AllocError> {
        String::from_str(alloc, "NO KEY\n")
    }

    fn load<'a, S: Shelf>(
        alloc: Global,
        arguments: &'a [String],
        shelf: &mut S,
    ) -> Result<Vec<u8>, Unloaded<'a, u8>> {
        match arguments {
            [key, text] => load_both(alloc, key.as_str(), text.as_str(), shelf),
            _ => match Vec::from_slice(alloc, b"NAMES\n") {
                Ok(own) => Ok(own),
                Err(_) => Err(Unloaded::NoMemory),
            },
        }
    }

    ghost lawful = { small.lawful_tiny };
}

impl Program for Tiny {
    fn perform<K: Sink>(_alloc: Global, work: Vec<u8>, out: &mut K) -> Result<u8, SendError> {
        send(out, &work)?;
        Ok(0)
    }
}

/// The files of the rows.
const FILES: [(&str, &[u8]); 4] = [
    ("K", b"K"),
    ("J", b"J"),
    ("T", b"A TEXT\n"),
    ("L", b"TOO LONG.."),
];

/// Command lines, each with the status and the text of its run.
const ROWS: [(&str, u8, &str); 8] = [
    ("K T", 0, "A TEXT\n"),
    ("J T", 6, "NO KEY\n"),
    ("Z T", 1, "ABSENT Z\n"),
    ("K Z", 1, "ABSENT Z\n"),
    ("J Z", 6, "NO KEY\n"),
    ("K L", 4, "LONG L 9\n"),
    ("T L", 4, "LONG T 1\n"),
    ("K", 0, "NAMES\n"),
];

/// The arguments of a command line.
fn arguments_of(rt: &impl Abort, alloc: Global, line: &str) -> Vec<String> {
    let mut arguments = Vec::new(alloc);
    for argument in line.split_whitespace() {
        let own = String::from_str(alloc, argument).expect(rt, "memory for an argument");
        assert!(rt; arguments.push(own).is_ok());
    }
    arguments
}

/// Runs a command line, and compares the status and what is sent.
fn expect_run(
    rt: &impl Abort,
    alloc: Global,
    shelf: &mut SteadyShelf,
    line: &str,
    status: u8,
    text: &str,
) {
    let arguments = arguments_of(rt, alloc, line);
    let mut out = SteadySink::new(alloc, 3);
    let ended = run::<Tiny, SteadyShelf, SteadySink>(alloc, &arguments, shelf, &mut out);
    expect_same(
        rt,
        &(line, ended, out.bytes()),
        &(line, status, text.as_bytes()),
    );
}

#[test]
fn tiny_program_walks_its_files(rt: HostRuntime) {
    let alloc = rt.alloc();
    let mut shelf = shelf_of(&rt, alloc, &FILES);
    for &(line, status, text) in &ROWS {
        expect_run(&rt, alloc, &mut shelf, line, status, text);
    }
}
