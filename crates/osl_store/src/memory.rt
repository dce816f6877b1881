//! Files and bytes in memory, of whose calls listed ones fail.

ghost use Rattle.std.specs.Prelude.{◌≡◌, ◌≢◌, ◌↔◌, [], List, ℕ, Some, None, IsTrue, string_bytes, IfSome, IfNone, OnOk, OnErr, IsErrOf};
ghost use Rattle.std.specs.Option.{option_map};
ghost use Rattle.osl_store.specs.Counts.{CountsRead, CountsWrite, CountsPut, no_counts};
ghost use Rattle.osl_store.specs.Files.{Takes, IsLonger};
ghost use Rattle.osl_store.specs.Views.{SameFiles, StaysFaultless, SinkStaysFaultless};
ghost use Rattle.osl_store.specs.Written.{Puts};
ghost use Rattle.osl_store.specs.Failures.{next_fails, after_call};
ghost use Rattle.osl_store.specs.Memory.{content, IsFirst, files_of, reads_of, writes_of, seen_store, written_of, puts_of, seen_sink};

use crate::failures::Failures;
use crate::{PutError, ReadError, Sink, Store, WriteError};
use std::alloc::{AllocError, Global};

/// Files in memory. Reads and writes are numbered from 1, and a listed number fails. Of two files of one name
/// the first counts.
#[derive(Drop)]
pub struct MemoryStore {
    files: Vec<(String, Vec<u8>)>,
    reads: Failures,
    writes: Failures,
    absents: u64,
    larges: u64,
    faults: u64,
    write_faults: u64,
}

impl MemoryStore {
    /// A store of these files. The listed reads and writes fail.
    pub fn new(
        files: Vec<(String, Vec<u8>)>,
        fail_reads: Vec<u64>,
        fail_writes: Vec<u64>,
    ) -> MemoryStore
        ensures files { files_of result ≡ content files.items }
        ensures counts { (seen_store result).counts ≡ no_counts }
        ensures reads { reads_of result ≡ record { made = 0; listed = fail_reads } }
        ensures writes { writes_of result ≡ record { made = 0; listed = fail_writes } }
    {
        MemoryStore {
            files,
            reads: Failures::new(fail_reads),
            writes: Failures::new(fail_writes),
            absents: 0,
            larges: 0,
            faults: 0,
            write_faults: 0,
        }
    }

    /// The bytes of a file. `None` is answered exactly where there is no such file.
    pub fn file(&self, name: &str) -> Option<&[u8]>
        ensures { option_map (λ s. s.now) result ≡ files_of self.now name.now }
    {
        bytes_of(self.files.as_slice(), name)
    }
}

impl Store for MemoryStore {
    ghost seen = { seen_store };

    /// As the trait says; and `Failed` comes exactly at a read that is listed.
    fn read(&mut self, name: &str, limit: u32, into: &mut Vec<u8>) -> Result<(), ReadError>
        ensures ok { OnOk result (Takes (Some (files_of self.old name.now)) limit into.old.items into.new.items) }
        ensures absent { IsErrOf result ReadError.Absent → files_of self.old name.now ≡ None }
        ensures large { IsErrOf result ReadError.TooLarge → IsLonger (Some (files_of self.old name.now)) limit }
        ensures failed { IsErrOf result ReadError.Failed ↔ IsTrue (next_fails (reads_of self.old)) }
        ensures err { OnErr result (into.new.items ≡ into.old.items) }

        ensures files { SameFiles (seen_store self.old) (seen_store self.new) }
        ensures counts { CountsRead (seen_store self.old).counts (seen_store self.new).counts result }
        ensures reads { reads_of self.new ≡ after_call (reads_of self.old) }
        ensures writes { writes_of self.new ≡ writes_of self.old }
        ensures faultless { StaysFaultless (seen_store self.old) (seen_store self.new) }
    {
        if self.reads.next_fails() {
            self.faults = self.faults.saturating_add(1);
            return Err(ReadError::Failed);
        }
        let Some(bytes) = bytes_of(self.files.as_slice(), name) else {
            self.absents = self.absents.saturating_add(1);
            return Err(ReadError::Absent);
        };
        if bytes.len() > limit as usize {
            self.larges = self.larges.saturating_add(1);
            return Err(ReadError::TooLarge);
        }
        match into.extend_from_slice(bytes) {
            Ok(()) => Ok(()),
            Err(_) => Err(ReadError::Memory),
        }
    }

    /// As the trait says; and `Failed` comes exactly at a write that is listed, and changes no file.
    fn write(&mut self, name: &str, bytes: &[u8]) -> Result<(), WriteError>
        ensures ok { OnOk result (files_of self.new name.now ≡ Some bytes.now) }
        ensures failed { IsErrOf result WriteError.Failed ↔ IsTrue (next_fails (writes_of self.old)) }
        ensures err { OnErr result (SameFiles (seen_store self.old) (seen_store self.new)) }

        ensures others { (other : List ℕ) → other ≢ name.now → files_of self.new other ≡ files_of self.old other }
        ensures counts { CountsWrite (seen_store self.old).counts (seen_store self.new).counts result }
        ensures reads { reads_of self.new ≡ reads_of self.old }
        ensures writes { writes_of self.new ≡ after_call (writes_of self.old) }
        ensures faultless { StaysFaultless (seen_store self.old) (seen_store self.new) }
    {
        if self.writes.next_fails() {
            self.write_faults = self.write_faults.saturating_add(1);
            return Err(WriteError::Failed);
        }
        match write_at(&mut self.files, name, bytes) {
            Ok(()) => Ok(()),
            Err(_) => Err(WriteError::Memory),
        }
    }
}

/// Bytes in memory. Puts are numbered from 1, and a listed number fails and appends nothing.
#[derive(Drop)]
pub struct MemorySink {
    bytes: Vec<u8>,
    puts: Failures,
    faults: u64,
}

impl MemorySink {
    /// A sink that has taken nothing yet. The listed puts fail.
    pub fn new(alloc: Global, fail: Vec<u64>) -> MemorySink
        ensures written { written_of result ≡ [] }
        ensures faults { (seen_sink result).faults ≡ 0 }
        ensures puts { puts_of result ≡ record { made = 0; listed = fail } }
    {
        MemorySink {
            bytes: Vec::new(alloc),
            puts: Failures::new(fail),
            faults: 0,
        }
    }

    /// The bytes taken so far.
    pub fn bytes(&self) -> &[u8]
        ensures { result.now ≡ written_of self.now }
    {
        self.bytes.as_slice()
    }
}

impl Sink for MemorySink {
    ghost seen = { seen_sink };

    /// As the trait says; and `Fault` comes exactly at a put that is listed, and appends nothing.
    fn put(&mut self, bytes: &[u8]) -> Result<(), PutError>
        ensures bytes { Puts (seen_sink self.old) (seen_sink self.new) bytes.now result }
        ensures failed { IsErrOf result PutError.Fault ↔ IsTrue (next_fails (puts_of self.old)) }
        ensures err { OnErr result (written_of self.new ≡ written_of self.old) }

        ensures counts { CountsPut (seen_sink self.old).faults (seen_sink self.new).faults result }
        ensures puts { puts_of self.new ≡ after_call (puts_of self.old) }
        ensures faultless { SinkStaysFaultless (seen_sink self.old) (seen_sink self.new) }
    {
        if self.puts.next_fails() {
            self.faults = self.faults.saturating_add(1);
            return Err(PutError::Fault);
        }
        match self.bytes.extend_from_slice(bytes) {
            Ok(()) => Ok(()),
            Err(_) => Err(PutError::Memory),
        }
    }
}

/// The bytes of the first entry of a name.
fn bytes_of<'a>(files: &'a [(String, Vec<u8>)], name: &str) -> Option<&'a [u8]>
    ensures { option_map (λ s. s.now) result ≡ content files.now name.now }
{
    for entry in files {
        if entry.0.as_str() == name {
            return Some(entry.1.as_slice());
        }
    }
    None
}

/// The place of the first entry of a name.
fn place_of(files: &[(String, Vec<u8>)], name: &str) -> Option<usize>
    ensures found { IfSome result (IsFirst files.now name.now) }
    ensures none { IfNone result (content files.now name.now ≡ None) }
{
    for (at, entry) in files.iter().enumerate() {
        if entry.0.as_str() == name {
            return Some(at);
        }
    }
    None
}

/// Makes the first entry of a name hold these bytes, or adds one.
fn write_at(files: &mut Vec<(String, Vec<u8>)>, name: &str, bytes: &[u8]) -> Result<(), AllocError>
    ensures written { OnOk result (content files.new.items name.now ≡ Some bytes.now) }
    ensures others { (other : List ℕ) → other ≢ name.now → content files.new.items other ≡ content files.old.items other }
    ensures err { OnErr result (files.new.items ≡ files.old.items) }
{
    let alloc = *files.allocator();
    let copy = Vec::from_slice(alloc, bytes)?;
    match place_of(files.as_slice(), name) {
        Some(at) => {
            let entry = &mut files[at];
            entry.1 = copy;
        }
        None => {
            let name = String::from_str(alloc, name)?;
            files.push((name, copy))?;
        }
    }
    Ok(())
}
