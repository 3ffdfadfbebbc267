//! Want of memory prints nothing: the status alone tells it.

use ags_listing::ListError;
use ags_machfile::MachError;
use ags_script::ScriptError;

#[test]
fn want_of_memory_prints_nothing(rt: HostRuntime) {
    let alloc = rt.alloc();
    let (listing, machine) = (ListError::NoMemory, MachError::NoMemory);
    let script = ScriptError::NoMemory;
    let line = format!(in alloc; "{listing}{machine}{script}").expect(&rt, "memory for a line");
    assert!(rt; line.is_empty());
}
