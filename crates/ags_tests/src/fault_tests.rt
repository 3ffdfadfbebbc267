//! The program over outsides that fail. The expected answers are typed by hand from the README's table of statuses.

ghost use Rattle.ags_outside.specs.ToldFile.{Untold};

use crate::command_lines::{File, arguments_of, expect_end, expect_same, shelf_of};
use ags_decks::FailingSink;
use ags_outside::{Pull, Shelf, SteadyShelf};
use ags_top::{Status, ags_main};

/// A good source S with its listing L, a source W of two words and symbols, a source B with a fault, a script P, and a source T with its
/// certificate C.
const FILES: [File; 7] = [
    ("S", "* FIRST\n ORG /4000\nA OCT 7\n"),
    ("L", "0000003 4000 000007 A OCT 7\n"),
    ("W", " ORG /4000\nA OCT 7\nB OCT 5\n"),
    ("B", " HLT 1\n"),
    ("P", "SHOW REG\nSHOW CELL 4000\n"),
    ("T", " ORG /4000\n TRA /4000\n"),
    ("C", "AGSCERT 1\nROW 4000 A ANY Q ANY X 0 V 0\nEND\n"),
];

/// Files, of which one can't be read: its bytes are x as far as they can, and it has no end. The shelf tells nothing.
#[derive(Drop)]
struct FailingShelf {
    held: SteadyShelf,
    failing: &'static str,
    readable: u64,
    faults: u64,
}

impl Shelf for FailingShelf {
    ghost told = { λ _ _. Untold };

    ghost faults = { λ shelf. shelf.faults };

    ghost absences = { λ shelf. shelf.held.absences };

    fn pull(&mut self, name: &str, from: u64, into: &mut [u8]) -> Pull {
        if name != self.failing {
            return self.held.pull(name, from, into);
        }
        if from >= self.readable {
            self.faults = self.faults.saturating_add(1);
            return Pull::Failed;
        }
        into.fill(b'x');
        Pull::Got(into.len())
    }
}

/// The file that can't be read, from which byte on, a command line, its status, and what is printed.
const READ_FAULTS: [(&str, u64, &str, Status, &str); 8] = [
    ("S", 0, "assemble S", Status::ReadFault, ""),
    ("S", 0, "run S P", Status::ReadFault, ""),
    ("P", 0, "run S P", Status::ReadFault, ""),
    (
        "P",
        0,
        "run B P",
        Status::BadSource,
        "SOURCE CARD 0000001 ERROR 4 UnknownOperation\n",
    ),
    ("P", 0, "run Z P", Status::AbsentFile, "ABSENT Z\n"),
    ("S", 0, "run S", Status::BadWords, "WORDS\n"),
    // a certificate is read as it comes, and its first line is bad here; but its file's end decides first
    ("C", 8192, "certify T C", Status::ReadFault, ""),
    (
        "C",
        u64::MAX,
        "certify T C",
        Status::LongFile,
        "LONG C 67108864\n",
    ),
];

// A file counts only where those before it are read: the script that can't be read isn't looked for after a source that
// is absent or has a fault.
#[test]
fn read_faults_write_nothing(rt: HostRuntime) {
    for &(failing, readable, line, status, text) in &READ_FAULTS {
        let mut shelf = FailingShelf {
            held: shelf_of(&rt, rt.alloc(), &FILES),
            failing,
            readable,
            faults: 0,
        };
        let case = (failing, readable);
        expect_end(&rt, &case, &mut shelf, 7, (line, status, text));
    }
}

/// A command line, the put that fails, the status, and how many puts were made.
const WRITE_FAULTS: [(&str, u64, Status, u64); 27] = [
    ("assemble S", 1, Status::WriteFault, 1),
    ("assemble S", 2, Status::WriteFault, 2),
    ("assemble S", 3, Status::WriteFault, 3),
    ("assemble S", 4, Status::Done, 3),
    ("tape W", 1, Status::WriteFault, 1),
    ("tape W", 2, Status::WriteFault, 2),
    ("tape W", 3, Status::Done, 2),
    ("xref W", 1, Status::WriteFault, 1),
    ("xref W", 2, Status::WriteFault, 2),
    ("xref W", 3, Status::Done, 2),
    ("compare S L", 1, Status::WriteFault, 1),
    ("compare S L", 2, Status::Done, 1),
    // the two lines of the listing, and the verdict
    ("certify T C", 1, Status::WriteFault, 1),
    ("certify T C", 2, Status::WriteFault, 2),
    ("certify T C", 3, Status::WriteFault, 3),
    ("certify T C", 4, Status::Done, 3),
    ("run S P", 1, Status::WriteFault, 1),
    ("run S P", 2, Status::WriteFault, 2),
    ("run S P", 3, Status::Done, 2),
    // the verdict, and the two lines of the script
    ("guard T P C", 1, Status::WriteFault, 1),
    ("guard T P C", 2, Status::WriteFault, 2),
    ("guard T P C", 3, Status::WriteFault, 3),
    ("guard T P C", 4, Status::Done, 3),
    ("run S", 1, Status::WriteFault, 1),
    ("assemble Z", 1, Status::WriteFault, 1),
    ("assemble B", 1, Status::WriteFault, 1),
    ("run S S", 1, Status::WriteFault, 1),
];

// Each line is put as one piece, and none is put after one that failed.
#[test]
fn write_faults_end_the_run(rt: HostRuntime) {
    let alloc = rt.alloc();
    for fault in &WRITE_FAULTS {
        let (line, at, _, _) = *fault;
        let mut shelf = shelf_of(&rt, alloc, &FILES);
        let mut out = FailingSink::at(at);
        let arguments = arguments_of(&rt, alloc, line);
        let ended = ags_main(alloc, &arguments, &mut shelf, &mut out);
        expect_same(&rt, &(line, at, ended, out.puts()), fault);
    }
}
