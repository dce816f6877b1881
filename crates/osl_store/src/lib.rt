//! The outside: a store of files by name, and a sink of bytes.
//!
//! Both are traits. Contracts see a store as one `StoreView`: what it tells of each file, how often something went wrong, and
//! whether no call of it fails. They see a sink as one `SinkView`: the bytes that it took, how often a put failed, and the same
//! for its calls. No count falls, and each refusal raises its own count alone. `MemoryStore` and `MemorySink` tell everything;
//! `FileStore` and `StdSink` are the system's files and standard output, and tell nothing.
//!
//! Definitions are in `specs/`: `Views`, `Counts`, `Files` and `Written` for the traits, `Failures` and `Memory` for what lies in
//! memory, `SystemErrors` for the system's files. `laws` says how puts add up.
#![tactic(auto)]

ghost use Rattle.std.specs.Prelude.{◌≡◌, ◌≢◌, List, ℕ, OnOk, OnErr, IsErrOf};
ghost use Rattle.osl_store.specs.Counts.{CountsRead, CountsWrite, CountsPut};
ghost use Rattle.osl_store.specs.Files.{Takes, Becomes, IsMissing, IsLonger};
ghost use Rattle.osl_store.specs.Views.{StoreView, SinkView, SameFiles, StaysFaultless, SinkStaysFaultless};
ghost use Rattle.osl_store.specs.Written.{Puts};

use thiserror::Error;

mod failures;
pub mod laws;
pub mod memory;
pub mod system;

pub use memory::{MemorySink, MemoryStore};
pub use system::{FileStore, StdSink};

/// Why a read gave no bytes.
#[derive(Clone, Copy, Debug, PartialEq, Eq, Error)]
pub enum ReadError {
    /// There is no such file.
    #[error("there is no such file")]
    Absent,
    /// The file is there, and could not be read.
    #[error("the file could not be read")]
    Failed,
    /// The file is longer than the limit.
    #[error("the file is longer than its limit")]
    TooLarge,
    /// An allocation failed.
    #[error("out of memory")]
    Memory,
}

/// Why a write did not end.
#[derive(Clone, Copy, Debug, PartialEq, Eq, Error)]
pub enum WriteError {
    /// The file could not be written, or not whole.
    #[error("the file could not be written")]
    Failed,
    /// An allocation failed.
    #[error("out of memory")]
    Memory,
}

/// Why a put did not end.
#[derive(Clone, Copy, Debug, PartialEq, Eq, Error)]
pub enum PutError {
    /// The bytes were not taken, or not all of them.
    #[error("the output took not all of the bytes")]
    Fault,
    /// An allocation failed.
    #[error("out of memory")]
    Memory,
}

/// Files by name.
pub trait Store {
    /// What contracts see of it: the files, where it tells them, the counts, and whether no call of it fails.
    ghost seen: { Self → StoreView };

    /// Appends the bytes of a file, of which there are at most `limit`, to `into`. After an error `into` is as
    /// before. `Memory` may come at any time.
    fn read(&mut self, name: &str, limit: u32, into: &mut Vec<u8>) -> Result<(), ReadError>
        ensures ok { OnOk result (Takes ((seen self.old).files name.now) limit into.old.items into.new.items) }
        ensures absent { IsErrOf result ReadError.Absent → IsMissing ((seen self.old).files name.now) }
        ensures large { IsErrOf result ReadError.TooLarge → IsLonger ((seen self.old).files name.now) limit }
        ensures err { OnErr result (into.new.items ≡ into.old.items) }

        ensures files { SameFiles (seen self.old) (seen self.new) }
        ensures counts { CountsRead (seen self.old).counts (seen self.new).counts result }
        ensures faultless { StaysFaultless (seen self.old) (seen self.new) };

    /// Makes a file hold exactly these bytes. After `Failed` what it holds is not told; `Memory` changes nothing.
    fn write(&mut self, name: &str, bytes: &[u8]) -> Result<(), WriteError>
        ensures ok { OnOk result (Becomes ((seen self.old).files name.now) ((seen self.new).files name.now) bytes.now) }
        ensures memory { IsErrOf result WriteError.Memory → SameFiles (seen self.old) (seen self.new) }

        // Whatever comes, every other file is told as before.
        ensures others { (other : List ℕ) → other ≢ name.now → (seen self.new).files other ≡ (seen self.old).files other }
        ensures counts { CountsWrite (seen self.old).counts (seen self.new).counts result }
        ensures faultless { StaysFaultless (seen self.old) (seen self.new) };
}

/// A place for bytes, one after another.
pub trait Sink {
    /// What contracts see of it: the bytes written, where it tells them, the count of faults, and whether no call of it fails.
    ghost seen: { Self → SinkView };

    /// Appends all the bytes. After `Fault` a front of them was appended, after `Memory` nothing.
    fn put(&mut self, bytes: &[u8]) -> Result<(), PutError>
        ensures bytes { Puts (seen self.old) (seen self.new) bytes.now result }
        ensures counts { CountsPut (seen self.old).faults (seen self.new).faults result }
        ensures faultless { SinkStaysFaultless (seen self.old) (seen self.new) };
}
