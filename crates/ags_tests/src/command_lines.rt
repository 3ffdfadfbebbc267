//! What the tests of the program share: command lines over files in memory, and what comes of them.

use ags_device::Device;
use ags_outside::{Shelf, SteadyShelf, SteadySink};
use ags_top::{Status, ags_main};
use std::alloc::Global;
use std::fmt::Debug;
use std::process::Abort;

/// The name of a file, and its text.
pub(crate) type File<'a> = (&'a str, &'a str);

/// A command line, its status, and what is printed.
pub(crate) type Answer<'a> = (&'a str, Status, &'a str);

/// The arguments of a command line.
pub(crate) fn arguments_of(rt: &impl Abort, alloc: Global, line: &str) -> Vec<String> {
    let mut arguments = Vec::new(alloc);
    for argument in line.split_whitespace() {
        let own = String::from_str(alloc, argument).expect(rt, "memory for an argument");
        assert!(rt; arguments.push(own).is_ok());
    }
    arguments
}

/// A text of a front, and of a piece that stands so often behind it.
pub(crate) fn repeated(
    rt: &impl Abort,
    alloc: Global,
    front: &str,
    piece: &str,
    count: u32,
) -> String {
    let mut text = String::from_str(alloc, front).expect(rt, "memory for a text");
    for _ in 0..count {
        assert!(rt; text.push_str(piece).is_ok());
    }
    text
}

/// Adds a device to a list.
pub(crate) fn add(rt: &impl Abort, devices: &mut Vec<Box<dyn Device>>, device: Box<dyn Device>) {
    assert!(rt; devices.push(device).is_ok());
}

/// Asserts that what is told is what is wanted.
pub(crate) fn expect_same<T: PartialEq + Debug>(rt: &impl Abort, told: &T, wanted: &T) {
    assert_eq!(rt; *told, *wanted);
}

/// A shelf with these files.
pub(crate) fn shelf_of(rt: &impl Abort, alloc: Global, files: &[File<'_>]) -> SteadyShelf {
    let mut shelf = SteadyShelf::new(alloc);
    for &(name, text) in files {
        assert!(rt; shelf.add(name, text.as_bytes()).is_ok());
    }
    shelf
}

/// Runs the program with these arguments over a shelf, into a sink that takes so many bytes at once, and expects its status and what is
/// printed. A failed assertion shows the case.
pub(crate) fn expect_told<S: Shelf, C: PartialEq + Debug>(
    rt: &(impl AllocGlobal + Abort),
    case: &C,
    shelf: &mut S,
    most: usize,
    arguments: &[String],
    told: (Status, &str),
) {
    let alloc = rt.alloc();
    let mut out = SteadySink::new(alloc, most.max(1));
    let ended = ags_main(alloc, arguments, shelf, &mut out);
    expect_same(
        rt,
        &(case, most, ended, str::from_utf8(out.bytes())),
        &(case, most, told.0, Ok(told.1)),
    );
}

/// The same with the arguments of a command line.
pub(crate) fn expect_end<S: Shelf, C: PartialEq + Debug>(
    rt: &(impl AllocGlobal + Abort),
    case: &C,
    shelf: &mut S,
    most: usize,
    answer: Answer<'_>,
) {
    let (line, status, text) = answer;
    let arguments = arguments_of(rt, rt.alloc(), line);
    let case = (case, line);
    expect_told(rt, &case, shelf, most, &arguments, (status, text));
}
