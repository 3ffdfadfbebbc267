//! The adapter over real files, for what no clause and no command line says: that a file which is held is read on, and one which stands
//! elsewhere is opened anew and read at its place.

use crate::common::expect_same;
use ags_edge::FileShelf;
use ags_outside::{Pull, Shelf};
use std::fs;

/// A file, the position from which it is read, for how many bytes there is room, the answer, and the bytes.
type Pulled = (&'static str, u64, usize, Pull, &'static [u8]);

/// What is pulled of one shelf: zeros that are opened, read on, and opened anew at their place; an empty file, held when another one is
/// asked for; and letters, at whose end the shelf stands when they are read at another place.
const PULLS: [Pulled; 7] = [
    ("/dev/zero", 0, 4, Pull::Got(4), &[0; 4]),
    ("/dev/zero", 4, 4, Pull::Got(4), &[0; 4]),
    ("/dev/zero", 2, 4, Pull::Got(4), &[0; 4]),
    ("/dev/null", 0, 4, Pull::End, &[]),
    ("/dev/zero", 0, 4, Pull::Got(4), &[0; 4]),
    ("letters", 0, 5, Pull::Got(5), b"ABCDE"),
    ("letters", 3, 2, Pull::Got(2), b"DE"),
];

#[test]
fn files_are_read_on_and_opened_anew(rt: HostRuntime) {
    assert!(rt; fs::write(&rt, "letters", b"ABCDE").is_ok());
    let mut shelf = FileShelf::new(&rt, rt.alloc());
    for &(name, from, size, answer, bytes) in &PULLS {
        let mut room = [1u8; 5];
        assert!(rt; 0 < size && size <= 5);
        let told = shelf.pull(name, from, &mut room[..size]);
        assert!(rt; told == answer && room.starts_with(bytes), "{name} {from}");
    }
    expect_same(&rt, &shelf.looked_for(), &Some("letters"));
}
