//! A person is told of a run over real files and standard output.

use crate::advice::Advice;
use crate::endings::Seen;
use crate::programs::Program;
use ags_edge::{FileShelf, OutSink};
use std::fs::Files;
use std::io::{self, Write};

/// A run that has ended.
#[derive(Clone, Copy)]
pub struct Ended<'a> {
    /// The program.
    pub program: Program,
    /// The number of its status.
    pub status: u8,
    /// Whether the words of the command line are UTF-8.
    pub is_text: bool,
    /// The name of the certificate, where the words name one.
    pub certificate: Option<&'a str>,
}

/// Tells a person of a run, in one line of standard error, where it wasn't answered as asked. That standard error can't be written
/// changes nothing.
pub fn tell<R: Files + Eprint, W: Write + Drop>(
    rt: &R,
    ended: Ended<'_>,
    shelf: &FileShelf<'_, R>,
    out: &io::Result<OutSink<W>>,
) {
    let (line, unwritten) = match out {
        Ok(sink) => (sink.last_piece(), sink.why_unwritten()),
        Err(_) => ("", None),
    };
    let seen = Seen {
        is_text: ended.is_text,
        line,
        file: shelf.looked_for(),
        certificate: ended.certificate,
        unread: shelf.why_unread(),
        unwritten,
    };
    if let Some(advice) = Advice::of(ended.program, ended.status, seen) {
        let name = ended.program.name();
        let _ = eprintln!(rt; "{name}: {advice}");
    }
}
