//! What the devices hear of the words that orders give.

ghost use Rattle.std.specs.Prelude.{◌≡◌, length, map, OnOk, OnErr, Some};
ghost use Rattle.ags_drive.specs.Doing.{devices_given};
ghost use Rattle.ags_drive.specs.Driven.{AreBehind};
ghost use Rattle.ags_drive.specs.Listening.{devices_told};

use ags_device::{Device, hear_all};
use ags_ports::{Machine, Stored};
use std::alloc::AllocError;

/// Each device that hears the address of a word that was given hears the word, where the machine has that register.
fn hear_one(
    machine: &Machine,
    devices: &mut Vec<Box<dyn Device>>,
    gave: &Stored,
) -> Result<(), AllocError>
    ensures heard { OnOk result (map record_of devices.new.items ≡ devices_given machine.now (Some gave.now) (map record_of devices.old.items)) }
    ensures part { OnErr result (AreBehind (map record_of devices.old.items) (map record_of devices.new.items)
        (devices_given machine.now (Some gave.now) (map record_of devices.old.items))) }
{
    if machine.ports.find_output(gave.address).is_none() {
        return Ok(());
    }
    let count = devices.len();
    hear_all(devices, count, gave.address, gave.word)
}

/// The same where an order may have given a word.
pub(crate) fn hear_gave(
    machine: &Machine,
    devices: &mut Vec<Box<dyn Device>>,
    gave: Option<Stored>,
) -> Result<(), AllocError>
    ensures heard { OnOk result (map record_of devices.new.items ≡ devices_given machine.now gave (map record_of devices.old.items)) }
    ensures part { OnErr result (AreBehind (map record_of devices.old.items) (map record_of devices.new.items)
        (devices_given machine.now gave (map record_of devices.old.items))) }
{
    match gave {
        Some(gave) => hear_one(machine, devices, &gave),
        None => Ok(()),
    }
}

/// The devices hear words that were given, in order.
pub(crate) fn hear_words(
    machine: &Machine,
    devices: &mut Vec<Box<dyn Device>>,
    words: &[Stored],
) -> Result<(), AllocError>
    ensures heard { OnOk result (map record_of devices.new.items ≡ devices_told machine.now (map record_of devices.old.items) words.now) }
    ensures part { OnErr result (AreBehind (map record_of devices.old.items) (map record_of devices.new.items)
        (devices_told machine.now (map record_of devices.old.items) words.now)) }
{
    for gave in words {
        if let Err(error) = hear_one(machine, devices, gave) {
            return Err(error);
        }
    }
    Ok(())
}
