//! A shelf in memory that never fails.

ghost use Rattle.std.specs.Prelude.{◌≡◌, ◌<◌, ◌≤◌, [], Some, OnOk, OnErr, length, map};
ghost use Rattle.std.specs.List.{position};
ghost use Rattle.std.specs.Option.{option_copied};
ghost use Rattle.std.specs.Str.{bytes_eq};
ghost use Rattle.std.specs.String.{string_bytes};
ghost use Rattle.ags_outside.specs.Files.{Puts, bytes_of};
ghost use Rattle.ags_outside.specs.StoredFile.{file_of};
ghost use Rattle.ags_outside.specs.Shelf.{GotWithin, IsSteadyPull, PullTells, absences_after};
ghost use Rattle.ags_outside.specs.ToldFile.{told_of};

use crate::{Pull, Shelf};
use std::alloc::{AllocError, Global};
use std::marker::Model;

/// A file in memory.
#[derive(Drop)]
struct StoredFile {
    name: String,
    bytes: Vec<u8>,
}

/// Files in memory. It tells of every name, and it never fails.
pub struct SteadyShelf {
    alloc: Global,
    files: Vec<StoredFile>,
    absences: u64,
}

// Written, so that whoever lets one go calls this, and the checker follows no part of it there.
impl Drop for SteadyShelf {
    fn drop(self) {
        let SteadyShelf {
            alloc: _,
            files: _,
            absences: _,
        } = self;
    }
}

impl Model for SteadyShelf {
    ghost use Rattle.std.specs.Prelude.{map};
    ghost use Rattle.ags_outside.specs.ShelfState.{ShelfState};
    ghost use Rattle.ags_outside.specs.StoredFile.{file_of};

    ghost Value = { ShelfState };

    ghost view = { λ shelf. record { files = map file_of shelf.files.items; absences = shelf.absences } };
}

/// Where the first file of that name stands.
fn position_of(files: &[StoredFile], name: &str) -> Option<usize>
    ensures { result ≡ position (λ file. bytes_eq (string_bytes file.name) name.now) files.now }
{
    files.iter().position(|file| file.name.as_str() == name)
}

/// The bytes of the first file of that name.
fn find<'a>(files: &'a [StoredFile], name: &str) -> Option<&'a [u8]>
    ensures { option_copied result ≡ bytes_of (map file_of files.now) name.now }
{
    let position = position_of(files, name)?;
    Some(files[position].bytes.as_slice())
}

impl SteadyShelf {
    /// A shelf without files.
    pub fn new(alloc: Global) -> SteadyShelf
        ensures empty { result.files ≡ [] }
        ensures absences { result.absences ≡ 0 }
    {
        SteadyShelf {
            alloc,
            files: Vec::new(alloc),
            absences: 0,
        }
    }

    /// Adds a file, in place of one of that name. Where memory is wanting nothing changes.
    pub fn add(&mut self, name: &str, bytes: &[u8]) -> Result<(), AllocError>
        ensures added { OnOk result (Puts self.old.files self.new.files name.now bytes.now) }
        ensures kept { OnErr result (self.new ≡ self.old) }
        ensures absences { self.new.absences ≡ self.old.absences }
    {
        let copy = Vec::from_slice(self.alloc, bytes)?;
        if let Some(position) = position_of(&self.files, name) {
            let file = &mut self.files[position];
            file.bytes = copy;
            return Ok(());
        }
        let name = String::from_str(self.alloc, name)?;
        self.files.push(StoredFile { name, bytes: copy })?;
        Ok(())
    }
}

impl Shelf for SteadyShelf {
    ghost told = { λ shelf name. told_of (bytes_of shelf.files name) };

    ghost faults = { λ _. 0 };

    ghost absences = { λ shelf. shelf.absences };

    fn pull(&mut self, name: &str, from: u64, into: &mut [u8]) -> Pull
        requires { 0 < length into.old }
        ensures files { self.new.files ≡ self.old.files }
        ensures absences { self.new.absences ≡ absences_after self.old.absences result }
        ensures absences_stay { self.old.absences ≤ self.new.absences }
        ensures got { GotWithin (length into.old) result }
        ensures tells { PullTells (told_of (bytes_of self.old.files name.now)) from into.new result }
        ensures steady { IsSteadyPull (bytes_of self.old.files name.now) from (length into.old) result }
    {
        let Some(bytes) = find(&self.files, name) else {
            self.absences = self.absences.saturating_add(1);
            return Pull::Absent;
        };
        let from = from as usize;
        if bytes.len() <= from {
            return Pull::End;
        }
        let count = into.len().min(bytes.len() - from);
        into[..count].copy_from_slice(&bytes[from..from + count]);
        Pull::Got(count)
    }
}
