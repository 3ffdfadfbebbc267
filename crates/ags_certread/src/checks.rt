//! What is asked of one statement, a question a function.

ghost use Rattle.std.specs.Prelude.{◌≡◌, ◌<◌, ◌&&◌, ◌==◌, length, get_or, false, is_some, Some};
ghost use Rattle.ags_certtext.specs.Fault.{fault_if, is_empty, is_fixed, is_of_version, is_outside, is_unmet, lacks_zero};
ghost use Rattle.ags_certread.specs.Gathering.{stated};

use ags_certtext::{CertKind, Entry, Statement};
use ags_domain::{Domain, Value};
use ags_ports::Port;
use ags_word::{ERASABLE, Word};

/// A fault where one is found, and else what is found later.
pub(crate) fn fault_if(found: bool, kind: CertKind, later: Option<CertKind>) -> Option<CertKind>
    ensures { result ≡ fault_if found kind later }
{
    if found {
        return Some(kind);
    }
    later
}

/// Whether the cell is a fixed one.
pub(crate) fn is_fixed(address: u16) -> bool
    ensures { result ≡ is_fixed address }
{
    address >= ERASABLE
}

/// Whether a statement is one of a version: there are links from version 2 on.
pub(crate) fn is_of_version(version: u32, statement: &Statement) -> bool
    ensures { result ≡ is_of_version version statement.now }
{
    match statement {
        Statement::Start(_) => true,
        Statement::Entry(_, _) => true,
        Statement::May(_) => true,
        Statement::Row(_) => true,
        Statement::Linked(_) => version >= 2,
        Statement::End => true,
    }
}

/// Whether the range of an entry, or of a row, is empty.
pub(crate) fn is_empty(value: &Option<Value>) -> bool
    ensures { result ≡ is_empty value.now }
{
    match value {
        Some(_) => false,
        None => true,
    }
}

/// Whether something is stated at an address.
pub(crate) fn is_stated(table: &[Option<Value>], address: u16) -> bool
    ensures { result ≡ is_some (stated table.now address) }
{
    let place = address as usize;
    if place >= table.len() {
        return false;
    }
    table[place].is_some()
}

/// Whether what is stated of a cell isn't within what its limit is stated to be.
fn is_outside(value: &Option<Value>, limit: &Option<Value>) -> bool
    ensures { result ≡ is_outside value.now limit.now }
{
    let Some(value) = value else {
        return false;
    };
    let Some(limit) = limit else {
        return false;
    };
    !value.within(limit)
}

/// Whether what an entry states isn't within what is stated at its address.
pub(crate) fn leaves(entry: &Entry, limits: &[Option<Value>]) -> bool
    ensures { result ≡ is_outside entry.now.value (stated limits.now entry.now.address) }
{
    let place = entry.address as usize;
    if place >= limits.len() {
        return false;
    }
    is_outside(&entry.value, &limits[place])
}

/// Whether a register holds its word once, and a value doesn't hold 0.
fn lacks_zero(port: &Port, value: Option<Value>) -> bool
    ensures { result ≡ lacks_zero (Some port.now) value }
{
    let Some(value) = value else {
        return false;
    };
    port.once && !value.holds(Word::ZERO)
}

/// The same of the register at an entry's address.
fn is_unmet_by(port: &Port, entry: &Entry) -> bool
    ensures { result ≡ (port.now.address == entry.now.address && lacks_zero (Some port.now) entry.now.value) }
{
    port.address == entry.address && lacks_zero(port, entry.value)
}

/// Whether the register at an entry's address holds its word once, and the entry's value doesn't hold 0.
pub(crate) fn is_unmet(ports: &[Port], entry: &Entry) -> bool
    ensures { result ≡ is_unmet ports.now entry.now }
{
    ports.iter().any(|port| is_unmet_by(port, entry))
}

/// Whether a location is among the named places.
pub(crate) fn is_named(places: &[bool], location: u16) -> bool
    requires { location < length places.now }
    ensures { result ≡ get_or places.now location false }
{
    places[location as usize]
}

/// How many rows stand at a location.
pub(crate) fn count_at(counts: &[u16], location: u16) -> u16
    requires { location < length counts.now }
    ensures { result ≡ get_or counts.now location 0 }
{
    counts[location as usize]
}
