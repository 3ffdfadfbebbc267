//! Devices in boxes, and lists of them.
//!
//! Each call on a list has a condition, also where the code could do without: to the toolchain a function of another crate that
//! takes a list of boxes for writing and has no condition may put a box of its own into it.

ghost use Rattle.std.specs.Prelude.{◌≡◌, ◌<◌, ◌^◌, IfSome, IsSome, OnOk, OnErr, length, map, slice_get};
ghost use Rattle.ags_device.specs.Record.{first_of, last_of, given};
ghost use Rattle.ags_device.specs.Devices.{feeds_of, hears_of, plan_of, kept_of, changed_at, without, hearing, is_heard, all_heard, IsHeardInPart};

use crate::Device;
use ags_word::Word;
use std::alloc::AllocError;

/// The address of the input register that the device at a position feeds.
pub fn feeds_at(devices: &Vec<Box<dyn Device>>, position: usize) -> Option<u16>
    requires { position < length devices.now.items }
    ensures feeds { result ≡ feeds_of (slice_get (map record_of devices.now.items) position) }
    ensures some { IsSome (slice_get (map record_of devices.now.items) position) }
{
    feeds(&devices[position])
}

/// The address of the output register that the device at a position hears.
pub fn hears_at(devices: &Vec<Box<dyn Device>>, position: usize) -> Option<u16>
    requires { position < length devices.now.items }
    ensures hears { result ≡ hears_of (slice_get (map record_of devices.now.items) position) }
    ensures some { IsSome (slice_get (map record_of devices.now.items) position) }
{
    hears(&devices[position])
}

/// How many words the device at a position will still give.
pub fn left_at(devices: &Vec<Box<dyn Device>>, position: usize) -> u64
    requires { position < length devices.now.items }
    ensures left { result ≡ length (plan_of (slice_get (map record_of devices.now.items) position)) }
    ensures some { IsSome (slice_get (map record_of devices.now.items) position) }
{
    left(&devices[position])
}

/// How many words the device at a position has heard.
pub fn count_at(devices: &Vec<Box<dyn Device>>, position: usize) -> u64
    requires { position < length devices.now.items }
    ensures count { result ≡ length (kept_of (slice_get (map record_of devices.now.items) position)) }
    ensures some { IsSome (slice_get (map record_of devices.now.items) position) }
{
    count(&devices[position])
}

/// The last word that the device at a position has heard.
pub fn last_at(devices: &Vec<Box<dyn Device>>, position: usize) -> Option<Word>
    requires { position < length devices.now.items }
    ensures last { result ≡ last_of (kept_of (slice_get (map record_of devices.now.items) position)) }
    ensures some { IsSome (slice_get (map record_of devices.now.items) position) }
{
    last(&devices[position])
}

/// The next word of the device at a position, which leaves its plan.
pub fn next_at(devices: &mut Vec<Box<dyn Device>>, position: usize) -> Option<Word>
    requires { position < length devices.old.items }
    ensures word { result ≡ first_of (plan_of (slice_get (map record_of devices.old.items) position)) }
    ensures below { IfSome result (λ word. word < 2 ^ 18) }
    ensures rest { map record_of devices.new.items ≡ changed_at given (map record_of devices.old.items) position }
    ensures length { length devices.new.items ≡ length devices.old.items }
{
    next(&mut devices[position])
}

/// The device at a position hears a word that was given to an address, where it hears that address. After want of memory nothing is
/// changed.
pub fn hear_at(
    devices: &mut Vec<Box<dyn Device>>,
    position: usize,
    address: u16,
    word: Word,
) -> Result<(), AllocError>
    requires { position < length devices.old.items }
    ensures heard { OnOk result (map record_of devices.new.items ≡ changed_at (hearing address word) (map record_of devices.old.items) position) }
    ensures same { OnErr result (map record_of devices.new.items ≡ map record_of devices.old.items) }
    ensures length { length devices.new.items ≡ length devices.old.items }
{
    hear(&mut devices[position], address, word)
}

/// Each device that hears an address hears a word that was given to it, in order; the count is that of the devices. After want
/// of memory those before some device have heard it, and the rest stands as it was.
pub fn hear_all(
    devices: &mut Vec<Box<dyn Device>>,
    count: usize,
    address: u16,
    word: Word,
) -> Result<(), AllocError>
    requires { count ≡ length devices.old.items }
    ensures heard { OnOk result (map record_of devices.new.items ≡ all_heard address word (map record_of devices.old.items)) }
    ensures part { OnErr result (IsHeardInPart address word (map record_of devices.old.items) (map record_of devices.new.items)) }
    ensures length { length devices.new.items ≡ length devices.old.items }
{
    for position in 0..count {
        hear_at(devices, position, address, word)?;
    }
    Ok(())
}

/// Takes the device at a position out of the list, which closes up, and drops it.
pub fn remove_at(devices: &mut Vec<Box<dyn Device>>, position: usize)
    requires { position < length devices.old.items }
    ensures { map record_of devices.new.items ≡ without (map record_of devices.old.items) position }
{
    drop(devices.remove(position));
}

/// The address of the input register that a device feeds.
fn feeds(device: &Box<dyn Device>) -> Option<u16>
    ensures { result ≡ (record_of device.now).feeds }
{
    device.feeds()
}

/// The address of the output register that a device hears.
fn hears(device: &Box<dyn Device>) -> Option<u16>
    ensures { result ≡ (record_of device.now).hears }
{
    device.hears()
}

/// How many words a device will still give.
fn left(device: &Box<dyn Device>) -> u64
    ensures { result ≡ length (record_of device.now).plan }
{
    device.left()
}

/// How many words a device has heard.
fn count(device: &Box<dyn Device>) -> u64
    ensures { result ≡ length (record_of device.now).kept }
{
    device.count()
}

/// The last word that a device has heard.
fn last(device: &Box<dyn Device>) -> Option<Word>
    ensures { result ≡ last_of (record_of device.now).kept }
{
    device.last()
}

/// The next word of a device.
fn next(device: &mut Box<dyn Device>) -> Option<Word>
    ensures word { result ≡ first_of (record_of device.old).plan }
    ensures below { IfSome result (λ word. word < 2 ^ 18) }
    ensures rest { record_of device.new ≡ given (record_of device.old) }
{
    let word = device.next()?;
    let _number = word.number();
    Some(word)
}

/// Whether a device hears an address.
fn is_hearing(device: &Box<dyn Device>, address: u16) -> bool
    ensures { result ≡ is_heard (record_of device.now).hears address }
{
    match device.hears() {
        Some(hears) => hears == address,
        None => false,
    }
}

/// A device hears a word that was given to an address, where it hears that address.
fn hear(device: &mut Box<dyn Device>, address: u16, word: Word) -> Result<(), AllocError>
    ensures heard { OnOk result (record_of device.new ≡ hearing address word (record_of device.old)) }
    ensures same { OnErr result (record_of device.new ≡ record_of device.old) }
{
    if is_hearing(device, address) {
        device.hear(word)
    } else {
        Ok(())
    }
}
