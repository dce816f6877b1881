//! The system's files and standard output, of which contracts are told no content.

ghost use Rattle.std.specs.Prelude.{None, false, ◌≡◌, ◌≢◌, OnOk, IsErrOf, Some};
ghost use Rattle.std.specs.Io.{StartsWith};
ghost use Rattle.std.specs.Option.{option_map};
ghost use Rattle.osl_store.specs.Counts.{no_counts};
ghost use Rattle.osl_store.specs.Files.{Takes, IsLonger};
ghost use Rattle.osl_store.specs.SystemErrors.{not_opened, not_read, not_taken, not_made};

use crate::{PutError, ReadError, Sink, Store, WriteError};
use std::fs;
use std::io::{ErrorKind, Read, Write};
use std::marker::Model;
use std::rt::Files;

/// The files of the system, seen as how often a call of them was refused. It tells no content: what they hold is outside
/// what contracts can say.
#[derive(Drop)]
pub struct FileStore<'a, R: Files> {
    rt: &'a R,
    absents: u64,
    larges: u64,
    faults: u64,
    write_faults: u64,
}

impl<'a, R: Files> Model for FileStore<'a, R> {
    ghost use Rattle.osl_store.specs.Counts.{Counts, counts_code};

    ghost Value = { Counts };

    ghost coded = { counts_code };

    ghost view = { λ s. record { absents = s.absents; larges = s.larges; faults = s.faults; write_faults = s.write_faults } };
}

impl<'a, R: Files> FileStore<'a, R> {
    /// Nothing was read or written yet.
    pub fn new(rt: &'a R) -> FileStore<'a, R>
        ensures { result ≡ no_counts }
    {
        FileStore {
            rt,
            absents: 0,
            larges: 0,
            faults: 0,
            write_faults: 0,
        }
    }
}

impl<R: Files> Store for FileStore<'_, R> {
    ghost seen = { λ counts. record { files = λ name. None; counts = counts; faultless = false } };

    /// `Absent` where there is no file of this name, a name under a file and one that is too long for the system among them.
    /// A file that is there and may not be opened, and a folder, are `Failed`.
    fn read(&mut self, name: &str, limit: u32, into: &mut Vec<u8>) -> Result<(), ReadError> {
        let before = into.len();
        let result = match fs::open(self.rt, name) {
            Ok(mut file) => take_all(&mut file, limit, into).map_err(not_taken),
            Err(error) => Err(not_opened(error.kind())),
        };
        match result {
            Ok(()) => return Ok(()),
            Err(ReadError::Absent) => self.absents = self.absents.saturating_add(1),
            Err(ReadError::TooLarge) => self.larges = self.larges.saturating_add(1),
            Err(ReadError::Failed) => self.faults = self.faults.saturating_add(1),
            Err(ReadError::Memory) => {}
        }
        into.truncate(before);
        result
    }

    fn write(&mut self, name: &str, bytes: &[u8]) -> Result<(), WriteError> {
        let result = match fs::create(self.rt, name) {
            // A write that was begun may have changed the file, so whatever ends it is a fault.
            Ok(mut file) => file.write_all(bytes).map_err(|_| WriteError::Failed),
            Err(error) => Err(not_made(error.kind())),
        };
        if let Err(WriteError::Failed) = result {
            self.write_faults = self.write_faults.saturating_add(1);
        }
        result
    }
}

/// Why what is left of a file was not appended.
#[derive(Clone, Copy)]
enum TakeError {
    /// More bytes came than the limit.
    TooLarge,
    /// The reader gave an error of this kind.
    Unread(ErrorKind),
}

/// Appends what is left of a file. After an error some of it may have been appended. An interrupted read is made again.
fn take_all<R: Read + Drop>(file: R, limit: u32, into: &mut Vec<u8>) -> Result<(), TakeError>
    ensures ok { OnOk result (Takes (option_map Some (R.remaining file)) limit into.old.items into.new.items) }
    ensures large { IsErrOf result TakeError.TooLarge → IsLonger (option_map Some (R.remaining file)) limit }
    ensures retried { IsErrOf result (TakeError.Unread ErrorKind.Interrupted) → ⊥ }
    ensures appends { StartsWith into.new.items into.old.items }
{
    match file.take(u64::from(limit) + 1).read_to_end(into) {
        Ok(count) if count > limit as usize => Err(TakeError::TooLarge),
        Ok(_) => Ok(()),
        Err(error) => Err(TakeError::Unread(error.kind())),
    }
}

/// Why a file was not opened.
fn not_opened(error: ErrorKind) -> ReadError
    ensures { result ≡ not_opened error }
{
    match error {
        ErrorKind::NotFound | ErrorKind::NotADirectory | ErrorKind::InvalidFilename => {
            ReadError::Absent
        }
        ErrorKind::OutOfMemory => ReadError::Memory,
        _ => ReadError::Failed,
    }
}

/// Why a file that was opened was not read to its end.
fn not_read(error: ErrorKind) -> ReadError
    ensures { result ≡ not_read error }
{
    match error {
        ErrorKind::OutOfMemory => ReadError::Memory,
        _ => ReadError::Failed,
    }
}

/// Why what is left of a file was not taken.
fn not_taken(error: TakeError) -> ReadError
    ensures { result ≡ not_taken error }
{
    match error {
        TakeError::TooLarge => ReadError::TooLarge,
        TakeError::Unread(error) => not_read(error),
    }
}

/// Why a file was not made.
fn not_made(error: ErrorKind) -> WriteError
    ensures { result ≡ not_made error }
{
    match error {
        ErrorKind::OutOfMemory => WriteError::Memory,
        _ => WriteError::Failed,
    }
}

/// Standard output, seen as how often a put failed. It tells no content.
#[derive(Drop)]
pub struct StdSink<'a, R: Print> {
    rt: &'a R,
    faults: u64,
}

impl<'a, R: Print> Model for StdSink<'a, R> {
    ghost use Rattle.std.specs.Prelude.{ℕ};

    ghost Value = { ℕ };

    ghost view = { λ s. s.faults };
}

impl<'a, R: Print> StdSink<'a, R> {
    /// Nothing was put yet.
    pub fn new(rt: &'a R) -> StdSink<'a, R>
        ensures { result ≡ 0 }
    {
        StdSink { rt, faults: 0 }
    }
}

impl<R: Print> Sink for StdSink<'_, R> {
    ghost seen = { λ faults. record { written = None; faults = faults; faultless = false } };

    /// An output that takes nothing of a piece that is not empty is at fault.
    fn put(&mut self, bytes: &[u8]) -> Result<(), PutError> {
        if self.rt.write_all(bytes).is_ok() {
            return Ok(());
        }
        self.faults = self.faults.saturating_add(1);
        Err(PutError::Fault)
    }
}
