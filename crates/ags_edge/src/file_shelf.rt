//! Files as a shelf.

ghost use Rattle.std.specs.Prelude.{◌≡◌, ◌≢◌, ◌+◌, ◌-◌, ◌^◌, ◌<◌, ◌≤◌, None, Some, Ok, IfOk, IfErr, OnErr, IfSome, IsSomeAnd, length, min};
ghost use Rattle.std.specs.Io.KnownBytes.{ReadConsumes};
ghost use Rattle.std.specs.IoError.{error_kind};
ghost use Rattle.std.specs.Option.{option_map};
ghost use Rattle.std.specs.Result.{result_ok};
ghost use Rattle.std.specs.String.{string_bytes};
ghost use Rattle.ags_edge.specs.Answers.{count_of, faults_after, looked_for};
ghost use Rattle.ags_edge.specs.Held.{IsAtItsEnd, IsBroughtTo, ReadsOn, ReadsWhatStood, StaysOpen, StoodAt};
ghost use Rattle.ags_outside.specs.Count.{HasCause, Rose};
ghost use Rattle.ags_outside.specs.Shelf.{GotWithin, absences_after, is_absent_pull, is_failed_pull};
ghost use Rattle.ags_outside.specs.ToldFile.{Untold};

use crate::reasons::reason_of;
use ags_outside::{Pull, Shelf};
use std::alloc::Global;
use std::fs;
use std::io::{self, ErrorKind, Read, Seek, SeekFrom};
use std::rt::Files;

/// A file that is open, and where it is read on.
#[derive(Drop)]
struct OpenFile<F> {
    name: String,
    file: F,
    at: u64,
}

/// Real files. A file stays open while it is read on, so that it is opened once.
pub struct FileShelf<'a, R: Files> {
    rt: &'a R,
    alloc: Global,
    held: Option<OpenFile<R::File>>,
    faults: u64,
    absences: u64,
    /// The name of the file that couldn't be read last, where there was memory to keep it.
    unread: Option<String>,
    /// Why it couldn't be read.
    reason: Option<ErrorKind>,
}

// Written, so that whoever lets one go calls this, and the checker follows no part of it there.
impl<'a, R: Files> Drop for FileShelf<'a, R> {
    fn drop(self) {
        let FileShelf {
            rt: _,
            alloc: _,
            held: _,
            faults: _,
            absences: _,
            unread: _,
            reason: _,
        } = self;
    }
}

/// A file that stood at its start, at that place.
fn go_to<F: Seek + Drop>(file: F, from: u64) -> io::Result<F>
    ensures there { IfOk result (λ there. F.stream_position file ≡ Some 0 → F.stream_position there ≡ Some from) }
    ensures start { from ≡ 0 → result ≡ Ok file }
    ensures brought { IfOk result (IsBroughtTo F.stream_position F.stream_bytes file from) }
{
    let mut file = file;
    if from != 0 {
        file.seek(SeekFrom::Start(from))?;
    }
    Ok(file)
}

/// Reads on in a file that is open.
fn read_more<F: Read>(file: &mut OpenFile<F>, into: &mut [u8]) -> io::Result<usize>
    ensures count { IfOk result (λ count. count ≤ length into.old) }
    ensures bytes { ReadConsumes (F.remaining file.old.file) (F.remaining file.new.file) result into.new }
    ensures name { file.new.name ≡ file.old.name }
    ensures place { IfOk result (λ count. file.new.at ≡ min (file.old.at + count) (2 ^ 64 - 1)) }
{
    let count = file.file.read(into)?;
    file.at = file.at.saturating_add(count as u64);
    Ok(count)
}

/// Opens a file to be read from that place on.
fn open_at<R: Files>(rt: &R, alloc: Global, name: &str, from: u64) -> io::Result<OpenFile<R::File>>
    ensures name { IfOk result (λ file. string_bytes file.name ≡ name.now) }
    ensures place { IfOk result (λ file. file.at ≡ from) }
    // What is read on was opened, and then brought to the place.
    ensures opened { IfOk result (λ file. (opened : R.File) × IsBroughtTo R.File.stream_position R.File.stream_bytes opened from file.file) }
{
    let name = String::from_str(alloc, name)?;
    let file = go_to(fs::open(rt, name.as_str())?, from)?;
    Ok(OpenFile {
        name,
        file,
        at: from,
    })
}

/// The file that is open where it is the one that is wanted, and else that one, newly opened.
fn file_at<R: Files>(
    rt: &R,
    alloc: Global,
    held: Option<OpenFile<R::File>>,
    name: &str,
    from: u64,
) -> io::Result<OpenFile<R::File>>
    ensures name { IfOk result (λ file. string_bytes file.name ≡ name.now) }
    ensures place { IfOk result (λ file. file.at ≡ from) }
    ensures kept { IfSome held (λ file. file.at ≡ from → string_bytes file.name ≡ name.now → result ≡ Ok file) }
    ensures stood { IfOk result (λ file. StoodAt R.File.stream_position R.File.stream_bytes held name.now from file.file) }
{
    match held {
        Some(file) if file.at == from && file.name.as_str() == name => Ok(file),
        _ => open_at(rt, alloc, name, from),
    }
}

/// What a shelf answers to a read. What the system names as not found is absent, and each other error that isn't want
/// of memory is a fault.
fn answer_to(read: io::Result<usize>) -> Pull
    ensures count { count_of result ≡ result_ok read }
    ensures end { read ≡ Ok 0 → result ≡ Pull.End }
    ensures got { IfOk read (λ count. 0 < count → result ≡ Pull.Got count) }
    ensures absent { IfErr read (λ error. error_kind error ≡ ErrorKind.NotFound → result ≡ Pull.Absent) }
    ensures memory { IfErr read (λ error. error_kind error ≡ ErrorKind.OutOfMemory → result ≡ Pull.NoMemory) }
    ensures failed { IfErr read (λ error. error_kind error ≢ ErrorKind.NotFound → error_kind error ≢ ErrorKind.OutOfMemory
        → result ≡ Pull.Failed) }
{
    match read {
        Ok(0) => Pull::End,
        Ok(count) => Pull::Got(count),
        Err(error) => match error.kind() {
            ErrorKind::NotFound => Pull::Absent,
            ErrorKind::OutOfMemory => Pull::NoMemory,
            _ => Pull::Failed,
        },
    }
}

impl<'a, R: Files> FileShelf<'a, R> {
    /// The files that the runtime reaches.
    pub fn new(rt: &'a R, alloc: Global) -> FileShelf<'a, R>
        ensures held { result.held ≡ None }
        ensures faults { result.faults ≡ 0 }
        ensures absences { result.absences ≡ 0 }
        ensures unread { result.unread ≡ None }
        ensures reason { result.reason ≡ None }
    {
        FileShelf {
            rt,
            alloc,
            held: None,
            faults: 0,
            absences: 0,
            unread: None,
            reason: None,
        }
    }

    /// The name of the file that couldn't be read, if there was one and memory to keep it.
    pub fn unread(&self) -> Option<&str>
        ensures { option_map (λ name. name.now) result ≡ option_map string_bytes self.now.unread }
    {
        self.unread.as_deref()
    }

    /// The name of the file that was looked for last, where it is known: of one that couldn't be read, else of one that is open. Of a
    /// file that is absent no name is kept.
    pub fn looked_for(&self) -> Option<&str>
        ensures { option_map (λ name. name.now) result ≡ looked_for (option_map string_bytes self.now.unread) (option_map (λ file. string_bytes file.name) self.now.held) }
    {
        match (&self.unread, &self.held) {
            (Some(name), _) => Some(name.as_str()),
            (None, Some(file)) => Some(file.name.as_str()),
            (None, None) => None,
        }
    }

    /// Why the file that couldn't be read last couldn't be.
    pub fn why_unread(&self) -> Option<ErrorKind>
        ensures { result ≡ self.now.reason }
    {
        self.reason
    }

    /// Keeps the name of a file that couldn't be read, and why.
    fn keep_unread(&mut self, name: &str, answer: Pull, reason: Option<ErrorKind>)
        ensures reason { answer ≡ Pull.Failed → self.new.reason ≡ reason }
        ensures reason_stays { answer ≢ Pull.Failed → self.new.reason ≡ self.old.reason }
        ensures unread { answer ≡ Pull.Failed → IfSome self.new.unread (λ unread. string_bytes unread ≡ name.now) }
        ensures unread_stays { answer ≢ Pull.Failed → self.new.unread ≡ self.old.unread }
        ensures faults { self.new.faults ≡ self.old.faults }
        ensures absences { self.new.absences ≡ self.old.absences }
        ensures held { self.new.held ≡ self.old.held }
    {
        if matches!(answer, Pull::Failed) {
            self.unread = String::from_str(self.alloc, name).ok();
            self.reason = reason;
        }
    }

    /// Reads on in a file, which stays open. After an error none is open.
    fn read_on(&mut self, name: &str, from: u64, into: &mut [u8]) -> io::Result<usize>
        ensures count { IfOk result (λ count. count ≤ length into.old) }
        ensures faults { self.new.faults ≡ self.old.faults }
        ensures absences { self.new.absences ≡ self.old.absences }
        ensures open { StaysOpen self.new.held name.now from (result_ok result) }
        ensures end { 0 < length into.old → IsAtItsEnd R.File.remaining self.new.held (result_ok result) }
        ensures bytes { ReadsOn R.File.remaining self.old.held self.new.held name.now from into.new (result_ok result) }
        ensures source { ReadsWhatStood R.File.remaining R.File.stream_position R.File.stream_bytes self.old.held self.new.held name.now from into.new (result_ok result) }
        ensures closed { OnErr result (self.new.held ≡ None) }
        ensures unread { self.new.unread ≡ self.old.unread }
        ensures reason { self.new.reason ≡ self.old.reason }
    {
        let mut file = file_at(self.rt, self.alloc, self.held.take(), name, from)?;
        let count = read_more(&mut file, into)?;
        self.held = Some(file);
        Ok(count)
    }

    /// Counts a file that is absent, and a failure.
    fn count(&mut self, answer: Pull)
        ensures faults { self.new.faults ≡ faults_after self.old.faults answer }
        ensures absences { self.new.absences ≡ absences_after self.old.absences answer }
        ensures faults_stay { self.old.faults ≤ self.new.faults }
        ensures absences_stay { self.old.absences ≤ self.new.absences }
        ensures held { self.new.held ≡ self.old.held }
        ensures unread { self.new.unread ≡ self.old.unread }
        ensures reason { self.new.reason ≡ self.old.reason }
    {
        match answer {
            Pull::Absent => self.absences = self.absences.saturating_add(1),
            Pull::Failed => self.faults = self.faults.saturating_add(1),
            Pull::Got(_) | Pull::End | Pull::NoMemory => {}
        }
    }
}

impl<R: Files> Shelf for FileShelf<'_, R> {
    ghost told = { λ _ _. Untold };

    ghost faults = { λ shelf. shelf.faults };

    ghost absences = { λ shelf. shelf.absences };

    fn pull(&mut self, name: &str, from: u64, into: &mut [u8]) -> Pull
        requires { 0 < length into.old }
        ensures got { GotWithin (length into.old) result }
        ensures faults_counted { self.new.faults ≡ faults_after self.old.faults result }
        ensures absences_counted { self.new.absences ≡ absences_after self.old.absences result }
        ensures absent { result ≡ Pull.Absent → Rose self.old.absences self.new.absences }
        ensures failed { result ≡ Pull.Failed → Rose self.old.faults self.new.faults }
        ensures faults { HasCause self.old.faults self.new.faults (is_failed_pull result) }
        ensures absences { HasCause self.old.absences self.new.absences (is_absent_pull result) }
        // The name that is kept for a message is that of the file that couldn't be read last.
        ensures unread { result ≡ Pull.Failed → IfSome self.new.unread (λ unread. string_bytes unread ≡ name.now) }
        ensures unread_stays { result ≢ Pull.Failed → self.new.unread ≡ self.old.unread }
        // And the reason that is kept beside it is one that makes a failure.
        ensures reason { result ≡ Pull.Failed → IsSomeAnd self.new.reason (λ reason. (reason ≢ ErrorKind.NotFound) × (reason ≢ ErrorKind.OutOfMemory)) }
        ensures reason_stays { result ≢ Pull.Failed → self.new.reason ≡ self.old.reason }
        // Bytes and an end are those of a file of that name, and what is known of it bears them out.
        ensures open { StaysOpen self.new.held name.now from (count_of result) }
        ensures end { IsAtItsEnd R.File.remaining self.new.held (count_of result) }
        ensures bytes { ReadsOn R.File.remaining self.old.held self.new.held name.now from into.new (count_of result) }
        // The first bytes of a file that was opened are those of what was opened, at the place that it was brought to.
        ensures source { ReadsWhatStood R.File.remaining R.File.stream_position R.File.stream_bytes self.old.held self.new.held name.now from into.new (count_of result) }
    {
        let read = self.read_on(name, from, into);
        let reason = reason_of(&read);
        let answer = answer_to(read);
        self.count(answer);
        self.keep_unread(name, answer, reason);
        answer
    }
}
