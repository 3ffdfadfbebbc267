//! Words that devices give, and that are put into input registers where the certificate declares them.

ghost use Rattle.std.specs.Prelude.{◌≡◌, false, ◌<◌, ◌+◌, [], ◌∷◌, length, map, slice_get, IsSome, IsTrue, IfSome, OnOk, IfErr, Some, None};
ghost use Rattle.ags_drive.specs.Act as act;
ghost use Rattle.ags_drive.specs.Bench as play;
ghost use Rattle.ags_drive.specs.Doing as doing;
ghost use Rattle.ags_certtype.specs.Cert.{certificate_of};
ghost use Rattle.ags_device.specs.Devices.{changed_at};
ghost use Rattle.ags_device.specs.Record.{given};
ghost use Rattle.ags_play.specs.Guard.{stopped_by};
ghost use Rattle.ags_drive.specs.Drive.{is_drive_fault};
ghost use Rattle.ags_drive.specs.Making.{ActMade, SilentUnmade, WordGiven, WordStopped, WordUngiven, put_from};
ghost use Rattle.ags_drive.specs.Standing.{IsBenchOf, bench_of};

use crate::benches::Bench;
use crate::drive_error::DriveError;
use ags_certtype::Cert;
use ags_core::Core;
use ags_device::{Device, feeds_at, next_at};
use ags_ports::{Event, Machine};
use ags_run::cert_lets_through;
use ags_word::Word;

/// The position of a number: numbers are counted from 1.
fn position_of_number(number: u32) -> Option<usize>
    ensures { result ≡ play.position_of_number number }
{
    if number == 0 {
        None
    } else {
        Some(number as usize - 1)
    }
}

/// Does nothing: its contract tells the proofs that a device is at a position.
pub(crate) fn is_there(devices: &Vec<Box<dyn Device>>, position: usize)
    requires { position < length devices.now.items }
    ensures { IsSome (slice_get (map record_of devices.now.items) position) }
{
    let _feeds = feeds_at(devices, position);
}

/// The position of the device with a number, where one is present.
pub(crate) fn find(devices: &Vec<Box<dyn Device>>, number: u32) -> Option<usize>
    ensures below { IfSome result (λ position. position < length devices.now.items) }
    ensures position { IfSome result (λ position. play.position_of_number number ≡ Some position) }
    ensures some { IfSome result (λ position. IsSome (slice_get (map record_of devices.now.items) position)) }
    ensures none { result ≡ None → play.device_at (map record_of devices.now.items) (play.position_of_number number) ≡ None }
{
    match position_of_number(number) {
        Some(position) => {
            if position < devices.len() {
                is_there(devices, position);
                Some(position)
            } else {
                None
            }
        }
        None => None,
    }
}

/// The position of the input register that is fed, where the machine has it.
fn fed_position(machine: &Machine, feeds: Option<u16>) -> Option<usize>
    ensures position { result ≡ doing.fed_position machine.now feeds }
    ensures below { IfSome result (λ position. position < length machine.now.ports.inputs) }
{
    match feeds {
        Some(address) => machine.ports.find_input(address),
        None => None,
    }
}

/// Whether a cycle feeds a register: it is there, and held or 0.
fn takes_word(machine: &Machine, core: &Core, feeds: Option<u16>) -> bool
    requires { length core.now.inputs ≡ length machine.now.ports.inputs }
    ensures { result ≡ doing.takes_word machine.now core.now (doing.fed_position machine.now feeds) }
{
    match fed_position(machine, feeds) {
        Some(position) => !machine.ports.is_once(position) || core.input(position).number() == 0,
        None => false,
    }
}

/// Whether the certificate lets a word be put.
fn is_let_through(machine: &Machine, cert: &Cert, address: u16, word: Word) -> bool
    ensures through { IsTrue result → stopped_by machine.now (Some (certificate_of cert.now)) (Some (record { address = address; word = word })) ≡ None }
    ensures stopped { result ≡ false
        → stopped_by machine.now (Some (certificate_of cert.now)) (Some (record { address = address; word = word })) ≡ Some (record { address = address; word = word }) }
{
    cert_lets_through(machine, cert, address, word)
}

/// Puts a word where the certificate declares it; the puts are then so many.
fn put(
    machine: &Machine,
    cert: &Cert,
    bench: &mut Bench,
    puts: u64,
    address: u16,
    word: Word,
) -> Result<(), DriveError>
    requires fitted { IsBenchOf machine.now bench.old }
    requires counted { puts ≡ bench.old.puts + 1 }
    ensures fitted { IsBenchOf machine.now bench.new }
    ensures given { OnOk result (WordGiven machine.now (certificate_of cert.now) bench.old bench.new (Some (record { address = address; word = word }))) }
    ensures stopped { IfErr result (WordStopped machine.now (certificate_of cert.now) (Some (record { address = address; word = word }))) }
    ensures no_fault { is_drive_fault result ≡ false }
{
    let _number = word.number();
    if !is_let_through(machine, cert, address, word) {
        return Err(DriveError::InputRange { address, word });
    }
    bench.core.act(machine, Event::Put { address, word });
    bench.puts = puts;
    Ok(())
}

/// Puts a device's next word where it has one and feeds a register.
fn put_next(
    machine: &Machine,
    cert: &Cert,
    bench: &mut Bench,
    puts: u64,
    feeds: Option<u16>,
    next: Option<Word>,
) -> Result<(), DriveError>
    requires fitted { IsBenchOf machine.now bench.old }
    requires counted { puts ≡ bench.old.puts + 1 }
    ensures fitted { IsBenchOf machine.now bench.new }
    ensures given { OnOk result (WordGiven machine.now (certificate_of cert.now) bench.old bench.new (put_from feeds next)) }
    ensures stopped { IfErr result (WordStopped machine.now (certificate_of cert.now) (put_from feeds next)) }
    ensures no_fault { is_drive_fault result ≡ false }
{
    match feeds {
        Some(address) => match next {
            Some(word) => put(machine, cert, bench, puts, address, word),
            None => Ok(()),
        },
        None => Ok(()),
    }
}

/// Takes the next word of the device at a position, and puts it where the device feeds a register.
fn give(
    machine: &Machine,
    cert: &Cert,
    bench: &mut Bench,
    devices: &mut Vec<Box<dyn Device>>,
    position: usize,
) -> Result<(), DriveError>
    requires fitted { IsBenchOf machine.now bench.old }
    requires position { position < length devices.old.items }
    ensures fitted { IsBenchOf machine.now bench.new }
    ensures given { OnOk result (WordGiven machine.now (certificate_of cert.now) bench.old bench.new (doing.next_put (slice_get (map record_of devices.old.items) position))) }
    ensures taken { OnOk result (map record_of devices.new.items ≡ changed_at given (map record_of devices.old.items) position) }
    ensures ungiven { IfErr result (WordUngiven machine.now (certificate_of cert.now) (map record_of devices.old.items) (map record_of devices.new.items) position) }
    ensures no_fault { is_drive_fault result ≡ false }
{
    // No run lasts so long that the count has no more room.
    let Some(puts) = bench.puts.checked_add(1) else {
        return Err(DriveError::NoMemory);
    };
    let feeds = feeds_at(devices, position);
    let next = next_at(devices, position);
    put_next(machine, cert, bench, puts, feeds, next)
}

/// FEED: the device with a number is fed from, whatever its register holds.
pub(crate) fn feed(
    machine: &Machine,
    cert: &Cert,
    bench: &mut Bench,
    devices: &mut Vec<Box<dyn Device>>,
    line: u32,
    number: u32,
) -> Result<(), DriveError>
    requires { IsBenchOf machine.now bench.old }
    ensures fitted { IsBenchOf machine.now bench.new }
    ensures made { OnOk result (ActMade machine.now (certificate_of cert.now) (act.Feeds line number) bench.old bench.new (map record_of devices.old.items) (map record_of devices.new.items)) }
    ensures unmade { IfErr result (SilentUnmade machine.now (certificate_of cert.now) (bench_of bench.old (map record_of devices.old.items)) (act.Feeds line number ∷ []) (map record_of devices.new.items)) }
    ensures no_fault { is_drive_fault result ≡ false }
{
    bench.steps_fit();
    let Some(position) = find(devices, number) else {
        return Err(DriveError::NoDevice {
            line,
            device: number,
        });
    };
    if fed_position(machine, feeds_at(devices, position)).is_none() {
        return Err(DriveError::NoFeed {
            line,
            device: number,
        });
    }
    give(machine, cert, bench, devices, position)
}

/// The feed of a cycle: the device at a position is fed from where its register is held or 0.
pub(crate) fn feed_in_cycle(
    machine: &Machine,
    cert: &Cert,
    bench: &mut Bench,
    devices: &mut Vec<Box<dyn Device>>,
    position: usize,
) -> Result<(), DriveError>
    requires { IsBenchOf machine.now bench.old }
    ensures fitted { IsBenchOf machine.now bench.new }
    ensures made { OnOk result (ActMade machine.now (certificate_of cert.now) (act.FeedsInCycle position) bench.old bench.new (map record_of devices.old.items) (map record_of devices.new.items)) }
    ensures unmade { IfErr result (SilentUnmade machine.now (certificate_of cert.now) (bench_of bench.old (map record_of devices.old.items)) (act.FeedsInCycle position ∷ []) (map record_of devices.new.items)) }
    ensures no_fault { is_drive_fault result ≡ false }
{
    bench.steps_fit();
    if position >= devices.len() {
        return Ok(());
    }
    if !takes_word(machine, &bench.core, feeds_at(devices, position)) {
        return Ok(());
    }
    give(machine, cert, bench, devices, position)
}
