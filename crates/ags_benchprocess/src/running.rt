//! A run of the bench over any shelf and any sink: what a real process does, but for making the real ones.

ghost use Rattle.std.specs.Prelude.{◌≡◌, ◌≢◌, [], IfOk, IfErr, OnErr, Ok, drop, map};
ghost use Rattle.std.specs.IoError.{error_kind};
ghost use Rattle.std.specs.Option.{option_map};
ghost use Rattle.std.specs.String.{string_bytes};
ghost use Rattle.std.specs.Vec.Iter.{into_iter_items};
ghost use Rattle.ags_benchprocess.specs.Devices.{three_devices};
ghost use Rattle.ags_benchprocess.specs.Ran.{EndsThree, RanThree, RunsThree, second_word};

use crate::devices::{pad, recorder, sensor};
use ags_bench::{Status, bench_main};
use ags_device::Device;
use ags_edge::HeldSink;
use ags_outside::Shelf;
use std::alloc::{AllocError, Global};
use std::env::Args;
use std::io::{self, ErrorKind};

/// The words after the program's name.
fn words_of(alloc: Global, all: Args) -> Result<Vec<String>, AllocError>
    ensures { IfOk result (λ words. words.items ≡ drop 1 (into_iter_items all)) }
{
    let mut words = Vec::new(alloc);
    let mut rest = all;
    let _name = rest.next();
    for word in rest {
        words.push(word)?;
    }
    Ok(words)
}

/// The words after the program's name, and none where they can't be had.
pub fn words_again(alloc: Global, again: io::Result<Args>) -> Vec<String>
    ensures { result.items ≢ [] → IfOk again (λ all. result.items ≡ drop 1 (into_iter_items all)) }
{
    match again {
        Ok(all) => match words_of(alloc, all) {
            Ok(words) => words,
            Err(_) => Vec::new(alloc),
        },
        Err(_) => Vec::new(alloc),
    }
}

/// The name of the certificate, which is the second word.
pub fn certificate_named(words: &[String]) -> Option<&str>
    ensures { option_map (λ name. name.now) result ≡ second_word (map string_bytes words.now) }
{
    match words {
        [_, certificate, ..] => Some(certificate.as_str()),
        _ => None,
    }
}

/// The status of a run whose words couldn't be had: there was no memory for them, or one of them isn't UTF-8.
fn status_of_error(error: &io::Error) -> Status
    ensures memory { error_kind error.now ≡ ErrorKind.OutOfMemory → result ≡ Status.NoMemory }
    ensures no_text { error_kind error.now ≢ ErrorKind.OutOfMemory → result ≡ Status.BadWords }
{
    if error.kind() == ErrorKind::OutOfMemory {
        Status::NoMemory
    } else {
        Status::BadWords
    }
}

/// Runs the bench with the devices, which are the three.
fn run_with<S: Shelf, K: HeldSink>(
    alloc: Global,
    words: &[String],
    shelf: &mut S,
    out: &mut K,
    devices: &mut Vec<Box<dyn Device>>,
) -> Status
    requires { map record_of devices.old.items ≡ three_devices }
    ensures { RunsThree (S.told shelf.old) (map string_bytes words.now) (K.told out.old) (K.told out.new) result
        (record {
          faults = S.faults shelf.old;
          faults_now = S.faults shelf.new;
          absences = S.absences shelf.old;
          absences_now = S.absences shelf.new;
          sink_faults = K.faults out.old;
          sink_faults_now = K.faults out.new;
        }) }
{
    bench_main(alloc, words, shelf, out, devices)
}

/// Makes the three devices and runs the bench with them. An error is want of memory for the devices: then nothing is read and nothing
/// is sent.
fn run_with_devices<S: Shelf, K: HeldSink>(
    alloc: Global,
    words: &[String],
    shelf: &mut S,
    out: &mut K,
) -> Result<Status, AllocError>
    ensures ran { IfOk result (λ status. RunsThree (S.told shelf.old) (map string_bytes words.now) (K.told out.old) (K.told out.new) status
        (record {
          faults = S.faults shelf.old;
          faults_now = S.faults shelf.new;
          absences = S.absences shelf.old;
          absences_now = S.absences shelf.new;
          sink_faults = K.faults out.old;
          sink_faults_now = K.faults out.new;
        })) }
    ensures unbegun { OnErr result ((out.new ≡ out.old) × (shelf.new ≡ shelf.old)) }
{
    let mut devices: Vec<Box<dyn Device>> = Vec::new(alloc);
    let pad = pad(alloc)?;
    devices.push(Box::new(alloc, sensor())?)?;
    devices.push(Box::new(alloc, pad)?)?;
    devices.push(Box::new(alloc, recorder(alloc))?)?;
    Ok(run_with(alloc, words, shelf, out, &mut devices))
}

/// Runs the bench over the words after the program's name; there is no other status where memory is wanting for the words or
/// the devices.
fn answer<S: Shelf, K: HeldSink>(alloc: Global, all: Args, shelf: &mut S, out: &mut K) -> Status
    ensures { RanThree (S.told shelf.old) (map string_bytes (drop 1 (into_iter_items all))) (K.told out.old) (K.told out.new) result
        (record {
          faults = S.faults shelf.old;
          faults_now = S.faults shelf.new;
          absences = S.absences shelf.old;
          absences_now = S.absences shelf.new;
          sink_faults = K.faults out.old;
          sink_faults_now = K.faults out.new;
        }) }
{
    let Ok(words) = words_of(alloc, all) else {
        return Status::NoMemory;
    };
    match run_with_devices(alloc, &words, shelf, out) {
        Ok(status) => status,
        Err(_) => Status::NoMemory,
    }
}

/// The same, and then the sink is finished: what it holds at the end is written, or the status is `WriteFault`.
fn run_over<S: Shelf, K: HeldSink>(alloc: Global, all: Args, shelf: &mut S, out: &mut K) -> Status
    ensures { EndsThree (S.told shelf.old) (map string_bytes (drop 1 (into_iter_items all))) (K.told out.old) (K.told out.new) result
        (record {
          faults = S.faults shelf.old;
          faults_now = S.faults shelf.new;
          absences = S.absences shelf.old;
          absences_now = S.absences shelf.new;
          sink_faults = K.faults out.old;
          sink_faults_now = K.faults out.new;
        })
        (K.is_written out.new) }
{
    let status = answer(alloc, all, shelf, out);
    if out.finish() {
        status
    } else {
        Status::WriteFault
    }
}

/// Runs the bench over the words as the system hands them over, and answers the status that the process ends with. Where there
/// are no words in text, or no sink for want of memory, nothing is read and nothing is sent. What the sink holds at the end is
/// written, or the status is `WriteFault`.
pub fn run<S: Shelf, K: HeldSink>(
    alloc: Global,
    words: io::Result<Args>,
    shelf: &mut S,
    out: &mut io::Result<K>,
) -> Status
    ensures ran { IfOk words (λ all. IfOk out.old (λ before. (after : _) × (out.new ≡ Ok after)
        × EndsThree (S.told shelf.old) (map string_bytes (drop 1 (into_iter_items all))) (K.told before) (K.told after) result
        (record {
          faults = S.faults shelf.old;
          faults_now = S.faults shelf.new;
          absences = S.absences shelf.old;
          absences_now = S.absences shelf.new;
          sink_faults = K.faults before;
          sink_faults_now = K.faults after;
        })
        (K.is_written after))) }
    ensures no_sink { IfOk words (λ all. IfErr out.old (λ error. result ≡ Status.NoMemory)) }
    ensures unmade { IfOk words (λ all. IfErr out.old (λ error. (out.new ≡ out.old) × (shelf.new ≡ shelf.old))) }
    ensures memory { IfErr words (λ error. error_kind error ≡ ErrorKind.OutOfMemory → result ≡ Status.NoMemory) }
    ensures no_text { IfErr words (λ error. error_kind error ≢ ErrorKind.OutOfMemory → result ≡ Status.BadWords) }
    ensures unbegun { IfErr words (λ error. (out.new ≡ out.old) × (shelf.new ≡ shelf.old)) }
{
    match words {
        Ok(all) => match out {
            Ok(sink) => run_over(alloc, all, shelf, sink),
            Err(_) => Status::NoMemory,
        },
        Err(error) => status_of_error(&error),
    }
}
